//! Images that are disjoint by the `$d` active at a position.
ghost use Rattle.std.specs.Prelude.{◌≡◌, ◌<◌, length};
ghost use Rattle.names.specs.Codes.{decode, name_at};
ghost use Rattle.frame.specs.Below.{AreBelow};
ghost use Rattle.frame.specs.Disjoint.{are_disjoint, is_pair_disjoint, is_symbol_disjoint};

use crate::pairs::Pairs;

impl<'a> Pairs<'a> {
    /// Returns whether every variable of one list and every variable of the other are different and
    /// both occur in one active `$d`.
    ///
    /// Does not allocate. Cost: that of `has` for each symbol of one list with each of the other.
    pub fn are_disjoint(&self, left: &[u32], right: &[u32]) -> bool
        requires left { AreBelow (length self.now.names) left.now }
        requires right { AreBelow (length self.now.names) right.now }
        ensures { result ≡ are_disjoint self.now.statements (decode self.now.names left.now)
            (decode self.now.names right.now) }
    {
        for x in left {
            if !self.is_disjoint(*x, right) {
                return false;
            }
        }
        true
    }

    /// Returns whether a symbol is no variable, or a pair with every variable of a list.
    fn is_disjoint(&self, x: u32, codes: &[u32]) -> bool
        requires symbol { x < length self.now.names }
        requires below { AreBelow (length self.now.names) codes.now }
        ensures { result ≡ is_symbol_disjoint self.now.statements (decode self.now.names codes.now)
            (name_at self.now.names x) }
    {
        for y in codes {
            if !self.is_apart(x, *y) {
                return false;
            }
        }
        true
    }

    /// Returns whether two symbols are not both variables, or are a pair.
    fn is_apart(&self, x: u32, y: u32) -> bool
        requires { (x < length self.now.names) × (y < length self.now.names) }
        ensures { result ≡ is_pair_disjoint self.now.statements (name_at self.now.names x) (name_at self.now.names y) }
    {
        if !self.variable(x) {
            return true;
        }
        if !self.variable(y) {
            return true;
        }
        self.has(x, y)
    }
}
