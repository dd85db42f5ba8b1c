//! Which directives of one day are taken first.
ghost use Rattle.std.specs.Prelude.{◌≡◌, ◌<◌};
ghost use Rattle.bean_load.specs.Rank.{rank_number, rank_of};

use bean_parser::DirectiveKind;

/// Which directives of one day are taken first.
#[derive(Clone, Copy, Drop)]
pub enum Rank {
    Open,
    Balance,
    Other,
    Document,
    Close,
}

impl Rank {
    /// Its number, from 0.
    pub fn number(self) -> u8
        ensures is { result ≡ rank_number self }
        ensures small { result < 8 }
    {
        match self {
            Rank::Open => 0,
            Rank::Balance => 1,
            Rank::Other => 2,
            Rank::Document => 3,
            Rank::Close => 4,
        }
    }

    /// The rank of a kind.
    pub fn of(kind: &DirectiveKind<'_>) -> Rank
        ensures { result ≡ rank_of kind.now }
    {
        match kind {
            DirectiveKind::Open(_) => Rank::Open,
            DirectiveKind::Balance(_) => Rank::Balance,
            DirectiveKind::Document(_) => Rank::Document,
            DirectiveKind::Close(_) => Rank::Close,
            _ => Rank::Other,
        }
    }
}
