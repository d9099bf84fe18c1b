//! The items of a proof, as a table of labels and one number for each item.
ghost use Rattle.std.specs.Prelude.{◌≡◌};
ghost use Rattle.proof_code.specs.ItemNumbers.{items_of};

use mm_lex::Words;
use std::marker::Model;

/// The items of a proof. Contracts see the list of them.
///
/// They are stored as a table of labels and one number for each item, so that no item has a label
/// of its own.
#[derive(Drop)]
pub struct Items {
    labels: Words,
    numbers: Vec<u32>,
}

impl Model for Items {
    ghost use Rattle.std.specs.Prelude.{List};
    ghost use Rattle.proof_code.specs.declared.item.Item.{Item};
    ghost use Rattle.proof_code.specs.ItemNumbers.{items_of};

    ghost Value = { List Item };

    ghost view = { λ a. items_of a.labels a.numbers.items };
}

/// The contents of `Items`: the labels that may be cited, and for each item its number.
///
/// The number 0 is a mark. A number up to the count of labels cites that label, counted from 1, and
/// a number that exceeds the count by k recalls the kth marked result. In a compressed proof the
/// labels are the mandatory ones and then the listed ones, and the numbers are those that the
/// letters write; in a normal proof the labels are the tokens.
#[derive(Clone, Copy)]
pub struct ItemParts<'a> {
    /// The labels that may be cited.
    pub labels: &'a Words,
    /// The number of each item.
    pub numbers: &'a [u32],
}

impl Items {
    /// Returns the items that these labels and numbers encode.
    pub fn from_parts(labels: Words, numbers: Vec<u32>) -> Items
        ensures { result ≡ items_of labels numbers.items }
    {
        Items { labels, numbers }
    }

    /// Returns the labels and the numbers.
    pub fn parts(&self) -> ItemParts<'_>
        ensures { items_of result.labels.now result.numbers.now ≡ self.now }
    {
        ItemParts {
            labels: &self.labels,
            numbers: self.numbers.as_slice(),
        }
    }
}
