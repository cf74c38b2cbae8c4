#![tactic(auto)]
// The planes of a group: what a channel's shift, 0 or 1, makes of sides and blocks (document 02, No. 4).
ghost use Rattle.std.specs.Prelude.{◌≡◌};
ghost use Rattle.planes.specs.Planes.{halved, half, is_first};

// A plane's side, of a group's side n: halved and rounded up where shifted.
pub fn halved(shift: u32, n: usize) -> usize
    ensures { result ≡ halved shift n }
{
    match shift {
        0 => n,
        _ => n.div_ceil(2),
    }
}

// The plane's block in which the group's block x lies.
pub fn half(shift: u32, x: usize) -> usize
    ensures { result ≡ half shift x }
{
    match shift {
        0 => x,
        _ => x / 2,
    }
}

// Block x is the first of those in its block of the plane.
pub fn is_first(shift: u32, x: usize) -> bool
    ensures { result ≡ is_first shift x }
{
    match shift {
        0 => true,
        _ => x % 2 == 0,
    }
}
