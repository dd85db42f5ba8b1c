//! What holds of the rules, whatever the code.
ghost use Rattle.theory.specs.Form.{IsUnambiguous};
ghost use Rattle.bean_grammar.specs.Amount.{amount};
ghost use Rattle.bean_grammar.specs.Expression.{HasValues, computed, exactly};
ghost use Rattle.bean_grammar.specs.Expression.{expression};
ghost use Rattle.bean_grammar.specs.Mark.{marks, some_marks};
ghost use Rattle.bean_grammar.specs.Metadata.{all_values, entry};

/// What is read by a rule, as far as nothing carries it on, is read in one way.
pub fn a_rule_has_one_reading()
    ensures expression { IsUnambiguous expression }
    ensures amount { IsUnambiguous amount }
    ensures entry { IsUnambiguous entry }
    ensures values { IsUnambiguous all_values }
    ensures marks { IsUnambiguous marks }
    ensures some_marks { IsUnambiguous some_marks }
{}

/// What is read as a number expression has one exact value, whatever the range, and the number that
/// it is read as, where it is in range, is that value.
pub fn an_expression_has_one_value()
    ensures values { HasValues }
    ensures one { IsUnambiguous (computed exactly) }
{}
