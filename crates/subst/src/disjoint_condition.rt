//! The disjoint variable condition for the images of one frame.
ghost use Rattle.std.specs.Prelude.{◌≡◌};
ghost use Rattle.frame.specs.Disjoint.{are_disjoint, are_groups_disjoint, is_group_disjoint};
ghost use Rattle.frame.specs.Substitution.{images_of_names};
ghost use Rattle.subst.specs.Images.{AreOver, image_of_name, is_image_disjoint};

use crate::images::Subst;
use frame::{Frame, Pairs};
use mm_lex::Words;

/// Returns whether the images meet the disjoint variable condition: for each two variables that the
/// cited frame makes disjoint, no variable is in both images, and each pair of variables, one from
/// each, is in a `$d` that is active at the theorem.
///
/// Numbers stand for the names that they have at the theorem, in the images too.
/// Cost: that of `Pairs::are_disjoint` for the images of each two variables that the frame makes
/// disjoint.
/// Source: Metamath, 4.2.6.
pub fn disjoint(subst: &Subst, frame: &Frame, pairs: &Pairs<'_>) -> bool
    requires { AreOver pairs.now.names subst.now }
    ensures { result ≡ are_groups_disjoint pairs.now.statements
        (images_of_names pairs.now.names subst.now) frame.now.groups }
{
    let groups = frame.groups();
    groups
        .iter()
        .all(|group| is_group_disjoint(subst, pairs, group))
}

/// Returns whether the images of each two of the variables are disjoint.
fn is_group_disjoint(subst: &Subst, pairs: &Pairs<'_>, group: &Words) -> bool
    requires { AreOver pairs.now.names subst.now }
    ensures { result ≡ is_group_disjoint pairs.now.statements (images_of_names pairs.now.names subst.now) group.now }
{
    group
        .iter()
        .all(|x| is_image_disjoint(subst, pairs, x, group))
}

/// Returns whether the image of x is disjoint from those of the other variables of the group.
fn is_image_disjoint(subst: &Subst, pairs: &Pairs<'_>, x: &[u8], group: &Words) -> bool
    requires { AreOver pairs.now.names subst.now }
    ensures { result ≡ is_image_disjoint pairs.now.statements
        (images_of_names pairs.now.names subst.now) group.now x.now (image_of_name pairs.now.names subst.now x.now) }
{
    group
        .iter()
        .all(|y| x == y || are_disjoint(subst, pairs, x, y))
}

/// Returns whether the images of two variables are disjoint. They are disjoint if one variable has
/// no number at the theorem: it is no variable there, and its image is itself.
fn are_disjoint(subst: &Subst, pairs: &Pairs<'_>, x: &[u8], y: &[u8]) -> bool
    requires { AreOver pairs.now.names subst.now }
    ensures { result ≡ are_disjoint pairs.now.statements (image_of_name pairs.now.names subst.now x.now)
        (image_of_name pairs.now.names subst.now y.now) }
{
    let Some(left) = pairs.number(x) else {
        return true;
    };
    let Some(right) = pairs.number(y) else {
        return true;
    };
    let left_own = [left];
    let right_own = [right];
    let left = subst.image(left).unwrap_or(&left_own);
    let right = subst.image(right).unwrap_or(&right_own);
    pairs.are_disjoint(left, right)
}
