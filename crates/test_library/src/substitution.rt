//! Simultaneous substitution, also of an empty image. Symbols are numbers.
use std::alloc::{AllocError, Global};
use subst::{Buffer, Subst, apply, apply_into, has_room};

/// The variable x.
const X: u32 = 4;

/// The variable y.
const Y: u32 = 5;

/// The images of x and y, an expression, and the result of substituting the images in it.
const CASES: [(&[u32], &[u32], &[u32], &[u32]); 3] = [
    (&[Y], &[X], &[0, X, 3, Y], &[0, Y, 3, X]),
    (&[], &[Y], &[0, 1, X, 2], &[0, 1, 2]),
    (&[1, Y, 2], &[0], &[X, X], &[1, Y, 2, 1, Y, 2]),
];

#[test]
fn images_are_substituted_at_once(rt: HostRuntime) {
    for (x, y, expr, expected) in CASES {
        assert!(rt;
            yields(rt.alloc(), x, y, expr, expected) == Ok(true),
            "{expr:?}"
        );
    }
}

/// Returns whether substituting these images of x and y in an expression yields `expected`, also if
/// the result is appended to a buffer.
fn yields(
    alloc: Global,
    x: &[u32],
    y: &[u32],
    expr: &[u32],
    expected: &[u32],
) -> Result<bool, AllocError> {
    let mut subst = Subst::new(alloc);
    yields_by(alloc, &mut subst, x, y, expr, expected)
}

/// Returns the same, with the images set in `subst`, which is empty at first. The first image of x
/// is replaced by the second.
fn yields_by(
    alloc: Global,
    subst: &mut Subst,
    x: &[u32],
    y: &[u32],
    expr: &[u32],
    expected: &[u32],
) -> Result<bool, AllocError> {
    subst.set(X, &[X, X])?;
    subst.set(X, x)?;
    subst.set(Y, y)?;
    Ok(is_result(alloc, subst, expr, expected)? && is_appended(alloc, subst, expr, expected)?)
}

/// Returns whether the substitution turns the expression into `expected`.
fn is_result(
    alloc: Global,
    subst: &Subst,
    expr: &[u32],
    expected: &[u32],
) -> Result<bool, AllocError> {
    Ok(apply(alloc, subst, expr)?.as_slice() == expected)
}

/// Returns whether appending the result of the substitution to an empty buffer twice leaves
/// `expected` there twice.
fn is_appended(
    alloc: Global,
    subst: &Subst,
    expr: &[u32],
    expected: &[u32],
) -> Result<bool, AllocError> {
    let mut buffer = Buffer::new(alloc);
    if !has_room(subst, expr, &buffer) {
        return Ok(false);
    }
    let _first = apply_into(subst, expr, &mut buffer)?;
    if !has_room(subst, expr, &buffer) {
        return Ok(false);
    }
    let _second = apply_into(subst, expr, &mut buffer)?;
    let rest = buffer.as_slice().strip_prefix(expected);
    Ok(rest == Some(expected))
}
