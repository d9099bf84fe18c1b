//! The words of a line. The first is its verb.
ghost use Rattle.std.specs.Prelude.{◌≡◌, option_map};
ghost use Rattle.std.specs.List.{join_with_byte};
ghost use Rattle.commands.specs.LineWords.{first_number, one_number, node_of, first_node, one_node};
ghost use Rattle.commands.specs.LineWords.{first_entry_id, one_entry_id, has_no_words, two_nodes};

use crate::pieces::Pieces;
use text::parse_number;

/// The byte between two words of a line.
pub const SPACE: u8 = b' ';

/// The words of a line that are not taken yet.
pub(crate) type Words<'a> = Pieces<'a, SPACE>;

/// A node, and the author and serial number by which a line names an entry. The entry itself is not
/// part of it. An author is a number, and gives each of its entries a serial number of its own.
#[derive(Clone, Copy, Debug, PartialEq, Eq)]
pub struct NodeEntryId {
    pub node: u8,
    pub author: u64,
    pub serial: u64,
}

/// Two nodes, in order.
#[derive(Clone, Copy, Debug, PartialEq, Eq)]
pub struct NodePair {
    pub first: u8,
    pub second: u8,
}

impl<'a> Pieces<'a, SPACE> {
    /// Returns all bytes that are left, with the spaces between the words.
    pub fn text(self) -> &'a [u8]
        ensures { result.now ≡ join_with_byte SPACE self.entry }
    {
        match self.rest {
            Some(rest) => rest,
            None => b"",
        }
    }

    /// Takes the next word as a number. Returns `None` if it is not a number or there is none; the
    /// words left are then not specified.
    pub fn take_number(&mut self) -> Option<u64>
        ensures { option_map (λ number. (number, self.new)) result ≡ first_number self.old }
    {
        parse_number(self.take()?)
    }

    /// Takes the next word as the number of a node. Returns `None` as `take_number` does.
    pub fn take_node(&mut self) -> Option<u8>
        ensures { option_map (λ node. (node, self.new)) result ≡ first_node self.old }
    {
        let number = self.take_number()?;
        Some(node_with_number(number))
    }

    /// Takes the next three words as `K AUTHOR SERIAL`: a node, and the author and serial number of
    /// an entry. Returns `None` unless they are three numbers; the words left are then not
    /// specified.
    pub fn take_entry_id(&mut self) -> Option<NodeEntryId>
        ensures { option_map (λ entry_id. (entry_id, self.new)) result ≡ first_entry_id self.old }
    {
        let node = node_with_number(self.take_number()?);
        let author = self.take_number()?;
        let serial = self.take_number()?;
        Some(NodeEntryId {
            node,
            author,
            serial,
        })
    }

    /// Returns the remaining word as a number, or `None` unless exactly one number is left.
    pub fn only_number(mut self) -> Option<u64>
        ensures { result ≡ one_number self.entry }
    {
        let number = self.take_number()?;
        match self.take() {
            Some(_word) => None,
            None => Some(number),
        }
    }

    /// Returns the remaining word as a node, or `None` unless exactly one number is left.
    pub fn only_node(self) -> Option<u8>
        ensures { result ≡ one_node self.entry }
    {
        Some(node_with_number(self.only_number()?))
    }

    /// Returns whether no word is left.
    pub fn has_no_words(mut self) -> bool
        ensures { result ≡ has_no_words self.entry }
    {
        self.take().is_none()
    }

    /// Returns the two remaining words as nodes, or `None` unless exactly two numbers are left.
    pub fn only_pair(mut self) -> Option<NodePair>
        ensures { result ≡ two_nodes self.entry }
    {
        let first = self.take_node()?;
        let second = self.only_node()?;
        Some(NodePair { first, second })
    }

    /// Returns the three remaining words as `K AUTHOR SERIAL`, or `None` unless exactly three
    /// numbers are left.
    pub fn only_entry_id(mut self) -> Option<NodeEntryId>
        ensures { result ≡ one_entry_id self.entry }
    {
        let entry_id = self.take_entry_id()?;
        match self.take() {
            Some(_word) => None,
            None => Some(entry_id),
        }
    }
}

/// Returns the node with this number, or 255 if the number is greater. No cluster has a node 255.
fn node_with_number(number: u64) -> u8
    ensures { result ≡ node_of number }
{
    u8::try_from(number).unwrap_or(u8::MAX)
}
