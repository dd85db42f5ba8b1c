//! Inventories whose counts have any number of decimals.
ghost use Rattle.std.specs.Prelude.{◌≡◌, ◌≤◌, ◌+ℤ◌, [], All, IfOk, IfSome, IsTrue, OnErr, OnOk};
ghost use Rattle.std.specs.Prelude.{map};
ghost use Rattle.std.specs.Int.{w128};
ghost use Rattle.std.specs.Int.RustNames.{FitsSigned};
ghost use Rattle.bean_lots.specs.Inventory.{IsInventory, MayBeNegated, count_of};
ghost use Rattle.query_holdings.specs.Total.{adds_up, at_cost, cost_total, units_total};
ghost use Rattle.query_holdings.specs.Total.{without_lot};
ghost use Rattle.query_bags.specs.Bag.{bag_cost, bag_units, negative_bag, with_entry};
ghost use Rattle.query_bags.specs.Own.{bag_in};

use query_holdings::{BagKey, Holding, Holdings, Kept, Lent};
use std::alloc::{AllocError, Global};
use std::marker::Model;

/// An inventory, and how many decimals its counts have: they are counts of `10^-places`.
pub struct Bag<'r> {
    pub places: u8,
    pub held: Holding<'r>,
}

/// Written out, so that what gives one up needs to know nothing of what is in it.
impl Drop for Bag<'_> {
    fn drop(self) {
        let Bag { places: _, held: _ } = self;
    }
}

impl Clone for Bag<'_> {
    ghost is_clone = { λ a b. b ≡ a };

    fn clone(&self) -> Result<Self, AllocError> {
        Ok(Bag {
            places: self.places,
            held: self.held.clone()?,
        })
    }
}

impl<'r> Bag<'r> {
    /// A copy whose positions are gone through alone: none is found quickly where they are many.
    fn listed(&self) -> Result<Bag<'r>, AllocError>
        ensures { IfOk result (λ b. b ≡ self.now) }
    {
        Ok(Bag {
            places: self.places,
            held: self.held.listed()?,
        })
    }
}

/// Positions without their lots.
fn units_in<'r>(alloc: Global, mut rest: Holdings<'_, 'r>) -> Result<Holding<'r>, AllocError>
    requires { IsTrue (adds_up [] (map without_lot rest)) }
    ensures { IfOk result (λ held. held ≡ units_total rest.entry) }
{
    let mut held = Holding::new(alloc);
    while let Some((key, count)) = rest.next_held() {
        held.add(BagKey::bare(Lent::new(key.currency())), count)?;
    }
    Ok(held)
}

/// Positions at cost.
fn cost_in<'r>(alloc: Global, mut rest: Holdings<'_, 'r>) -> Result<Holding<'r>, AllocError>
    requires { IsTrue (adds_up [] (map at_cost rest)) }
    ensures { IfOk result (λ held. held ≡ cost_total rest.entry) }
{
    let mut held = Holding::new(alloc);
    while let Some((key, count)) = rest.next_held() {
        let cost = key.count_at_cost(count);
        held.add(BagKey::bare(Lent::new(key.currency_at_cost())), cost)?;
    }
    Ok(held)
}

/// How a bag lies.
#[derive(Drop)]
pub(crate) enum Form<'r> {
    /// It can grow.
    Grown(Box<Bag<'r>>),
    /// A copy of one that has few positions.
    Kept { places: u8, held: Kept<'r> },
}

/// A bag in memory of its own: values stay small, few of which are bags. A copy of it, as of the
/// running inventory for each row, takes little memory where it has few positions. Contracts see the
/// bag itself.
pub struct OwnBag<'r> {
    form: Form<'r>,
}

/// Written out, so that what gives one up needs to know nothing of what is in it.
impl Drop for OwnBag<'_> {
    fn drop(self) {
        let OwnBag { form: _ } = self;
    }
}

impl<'r> Model for OwnBag<'r> {
    ghost use Rattle.query_bags.specs.Own.{bag_in};
    ghost use Rattle.query_bags.specs.declared.bag.Bag.{Bag};

    ghost Value = { Bag };

    ghost view = { λ b. bag_in b.form };
}

/// A copy of a bag in few bytes, where that can be.
fn few_of<'r>(bag: &Bag<'r>) -> Result<Option<Form<'r>>, AllocError>
    ensures { IfOk result (λ found. IfSome found (λ form. bag_in form ≡ bag.now)) }
{
    let Some(held) = bag.held.kept()? else {
        return Ok(None);
    };
    Ok(Some(Form::Kept {
        places: bag.places,
        held,
    }))
}

/// A bag that can grow, in memory of its own.
fn grown<'r>(bag: Bag<'r>) -> Result<Form<'r>, AllocError>
    ensures { IfOk result (λ form. bag_in form ≡ bag.entry) }
{
    Ok(Form::Grown(Box::new(bag.held.alloc(), bag)?))
}

impl Clone for OwnBag<'_> {
    ghost is_clone = { λ a b. b ≡ a };

    fn clone(&self) -> Result<Self, AllocError> {
        let form = match &self.form {
            Form::Grown(bag) => match few_of(bag)? {
                Some(form) => form,
                None => Form::Grown(bag.clone()?),
            },
            Form::Kept { places, held } => Form::Kept {
                places: *places,
                held: held.clone()?,
            },
        };
        Ok(OwnBag { form })
    }
}

/// A copy with a count more under a key, which can grow.
#[inline(never)]
fn grown_with<'r>(
    places: u8,
    kept: &Kept<'r>,
    key: BagKey<'r>,
    count: i128,
) -> Result<Form<'r>, AllocError>
    requires { FitsSigned w128 (count_of kept.now key +ℤ count) }
    ensures { IfOk result (λ form. bag_in form ≡ with_entry
        (record { places = places; held = kept.now }) key.entry count) }
{
    let mut held = kept.grown()?;
    held.add(key, count)?;
    grown(Bag { places, held })
}

impl<'r> OwnBag<'r> {
    /// The bag in memory of its own.
    pub fn new(alloc: Global, bag: Bag<'r>) -> Result<OwnBag<'r>, AllocError>
        ensures { IfOk result (λ b. b ≡ bag.entry) }
    {
        Ok(OwnBag {
            form: Form::Grown(Box::new(alloc, bag)?),
        })
    }

    /// A copy that is only gone through, and not compared with another: where it has many positions,
    /// none is found quickly.
    pub fn listed(&self) -> Result<OwnBag<'r>, AllocError>
        ensures { IfOk result (λ b. b ≡ self.now) }
    {
        let form = match &self.form {
            Form::Grown(bag) => match few_of(bag)? {
                Some(form) => form,
                None => grown(bag.listed()?)?,
            },
            Form::Kept { .. } => return self.clone(),
        };
        Ok(OwnBag { form })
    }

    /// How many decimals its counts have.
    pub fn places(&self) -> u8
        ensures { result ≡ self.now.places }
    {
        match &self.form {
            Form::Grown(bag) => bag.places,
            Form::Kept { places, .. } => *places,
        }
    }

    /// The count under a key, 0 where nothing is held.
    pub fn get(&self, key: &BagKey<'_>) -> i128
        ensures { result ≡ count_of self.now.held key.now }
    {
        match &self.form {
            Form::Grown(bag) => bag.held.get(key),
            Form::Kept { held, .. } => held.get(key),
        }
    }

    /// The positions, in order of entry.
    pub fn positions(&self) -> Holdings<'_, 'r>
        ensures positions { result ≡ self.now.held }
        ensures inventory { IsInventory self.now.held }
    {
        match &self.form {
            Form::Grown(bag) => bag.held.positions(),
            Form::Kept { held, .. } => held.positions(),
        }
    }

    /// The inventory without its lots.
    pub fn units(&self, alloc: Global) -> Result<OwnBag<'r>, AllocError>
        requires { IsTrue (adds_up [] (map without_lot self.now.held)) }
        ensures { IfOk result (λ b. b ≡ bag_units self.now) }
    {
        let held = units_in(alloc, self.positions())?;
        OwnBag::new(
            alloc,
            Bag {
                places: self.places(),
                held,
            },
        )
    }

    /// The inventory at cost, with 8 decimals more.
    pub fn cost(&self, alloc: Global) -> Result<OwnBag<'r>, AllocError>
        requires sums { IsTrue (adds_up [] (map at_cost self.now.held)) }
        requires places { self.now.places ≤ 24 }
        ensures { IfOk result (λ b. b ≡ bag_cost self.now) }
    {
        let held = cost_in(alloc, self.positions())?;
        OwnBag::new(
            alloc,
            Bag {
                places: self.places() + 8,
                held,
            },
        )
    }

    /// The inventory of the other sign.
    pub fn negated(self) -> OwnBag<'r>
        requires { All MayBeNegated self.held }
        ensures { result ≡ negative_bag self.entry }
    {
        let OwnBag { mut form } = self;
        match &mut form {
            Form::Grown(bag) => bag.held.negate(),
            Form::Kept { held, .. } => held.negate(),
        }
        OwnBag { form }
    }

    /// Lets the copies that follow share their keys, where these are few: they take less memory then.
    pub fn share_keys(&mut self) -> Result<(), AllocError>
        ensures { self.new ≡ self.old }
    {
        match &mut self.form {
            Form::Grown(bag) => bag.held.share_keys(),
            Form::Kept { .. } => Ok(()),
        }
    }

    /// Adds to the count under a key. The caller knows that the sum fits.
    #[inline(always)]
    pub fn add(&mut self, key: BagKey<'r>, count: i128) -> Result<(), AllocError>
        requires { FitsSigned w128 (count_of self.old.held key +ℤ count) }
        ensures ok { OnOk result (self.new ≡ with_entry self.old key.entry count) }
        ensures err { OnErr result (self.new ≡ self.old) }
    {
        if let Form::Kept { places, held } = &self.form {
            self.form = grown_with(*places, held, key, count)?;
            return Ok(());
        }
        match &mut self.form {
            Form::Grown(bag) => bag.held.add(key, count),
            Form::Kept { .. } => unreachable!(),
        }
    }
}
