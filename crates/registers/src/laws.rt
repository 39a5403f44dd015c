//! Laws of keys and of rising rows, each carried by the contract of a function that does nothing.
ghost use Rattle.std.specs.Prelude.{List};
ghost use Rattle.registers.specs.Order.{NoneBeforeItself, BeforeLeadsOn, OneIsBefore};
ghost use Rattle.registers.specs.Rows.{EachKeyOnce};

use super::record::Record;

/// The order of keys is total, and rising rows have each key once.
pub fn keys_are_ordered<R: Record>()
    ensures itself { NoneBeforeItself }
    ensures on { BeforeLeadsOn }
    ensures total { OneIsBefore }
    ensures once { (rows : List R) → EachKeyOnce R.keyed rows }
{}
