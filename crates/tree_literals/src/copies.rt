//! Copies of two to five things.
ghost use Rattle.std.specs.Prelude.{IfOk};

use std::alloc::AllocError;

/// Copies of two things, or the allocator's error.
pub fn copies_of_two<A: Clone, B: Clone>(a: &A, b: &B) -> Result<(A, B), AllocError>
    ensures { IfOk result (λ r. A.is_clone a.now r.0 × B.is_clone b.now r.1) }
{
    Ok((a.clone()?, b.clone()?))
}

/// Copies of three things, or the allocator's error.
pub fn copies_of_three<A: Clone, B: Clone, C: Clone>(
    a: &A,
    b: &B,
    c: &C,
) -> Result<(A, B, C), AllocError>
    ensures { IfOk result (λ r. A.is_clone a.now r.0 × B.is_clone b.now r.1 × C.is_clone c.now r.2) }
{
    let front = copies_of_two(a, b)?;
    let last = c.clone()?;
    Ok((front.0, front.1, last))
}

/// Copies of four things, or the allocator's error.
pub fn copies_of_four<A: Clone, B: Clone, C: Clone, D: Clone>(
    a: &A,
    b: &B,
    c: &C,
    d: &D,
) -> Result<(A, B, C, D), AllocError>
    ensures { IfOk result (λ r. A.is_clone a.now r.0 × B.is_clone b.now r.1 × C.is_clone c.now r.2 × D.is_clone d.now r.3) }
{
    let front = copies_of_two(a, b)?;
    // In pairs, so that few values are owned at each `?`.
    let back = copies_of_two(c, d)?;
    Ok((front.0, front.1, back.0, back.1))
}

/// Copies of five things, or the allocator's error.
pub fn copies_of_five<A: Clone, B: Clone, C: Clone, D: Clone, E: Clone>(
    a: &A,
    b: &B,
    c: &C,
    d: &D,
    e: &E,
) -> Result<(A, B, C, D, E), AllocError>
    ensures { IfOk result (λ r. A.is_clone a.now r.0 × B.is_clone b.now r.1 × C.is_clone c.now r.2 × D.is_clone d.now r.3 × E.is_clone e.now r.4) }
{
    let front = copies_of_two(a, b)?;
    let back = copies_of_three(c, d, e)?;
    Ok((front.0, front.1, back.0, back.1, back.2))
}
