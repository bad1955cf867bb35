// A line of OBJ text, byte after byte: where each leads, from the spot at which it stands.
#![tactic(auto)]

ghost use Rattle.std.specs.Prelude.{◌≡◌, ◌+◌, ◌-◌, ◌*◌, true, false, eqb, Some, None};
ghost use Rattle.lists.specs.Lists.{pick};
ghost use Rattle.spots.specs.Spots.{grows, after_number};
ghost use Rattle.spots.specs.Spots.{turn as turn_of, ends as end_of, is_stuck as is_stuck_at, is_line as is_line_at};

// The farthest that a coordinate lies from zero, as in crate `whole`.
const REACH: u32 = 1_000_000_000;

// Where in a line the next byte stands.
#[derive(Clone, Copy)]
pub enum Spot {
    // a line may begin, or the text end
    Line,
    // the space after `v`
    AfterV,
    // a coordinate begins
    Coord,
    // a minus sign was read
    Minus,
    // a coordinate so far: n, or -n
    Above(u32),
    Under(u32),
    // the space after `f`
    AfterF,
    // a corner begins
    Corner,
    // a corner so far
    Number(u32),
    // no allowed text goes on like this
    Stuck,
}

// After i coordinates and j corners, as everywhere here.
#[tactic(auto, unfolding(crate::specs::Spots::turn))]
fn line(i: u32, j: u32, c: u32) -> Spot
    ensures { result ≡ turn_of i j Spot.Line c }
{
    if c == 118 {
        if j != 0 {
            return Spot::Stuck;
        }
        if i < 98304 {
            return Spot::AfterV;
        }
        return Spot::Stuck;
    }
    if c != 102 {
        return Spot::Stuck;
    }
    if i == 0 {
        return Spot::Stuck;
    }
    if j < 98304 {
        return Spot::AfterF;
    }
    Spot::Stuck
}

#[tactic(auto, unfolding(crate::specs::Spots::turn))]
fn after_v(c: u32) -> Spot
    ensures { result ≡ turn_of 0 0 Spot.AfterV c }
{
    if c == 32 {
        return Spot::Coord;
    }
    Spot::Stuck
}

#[tactic(auto, unfolding(crate::specs::Spots::turn))]
fn coord(c: u32) -> Spot
    ensures { result ≡ turn_of 0 0 Spot.Coord c }
{
    if c == 45 {
        return Spot::Minus;
    }
    if c < 48 {
        return Spot::Stuck;
    }
    if 57 < c {
        return Spot::Stuck;
    }
    Spot::Above(c - 48)
}

#[tactic(auto, unfolding(crate::specs::Spots::turn))]
fn minus(c: u32) -> Spot
    ensures { result ≡ turn_of 0 0 Spot.Minus c }
{
    if c <= 48 {
        return Spot::Stuck;
    }
    if 57 < c {
        return Spot::Stuck;
    }
    Spot::Under(c - 48)
}

#[tactic(auto, unfolding(crate::specs::Spots::turn))]
fn after_f(c: u32) -> Spot
    ensures { result ≡ turn_of 0 0 Spot.AfterF c }
{
    if c == 32 {
        return Spot::Corner;
    }
    Spot::Stuck
}

#[tactic(auto, unfolding(crate::specs::Spots::turn))]
fn corner(i: u32, c: u32) -> Spot
    ensures { result ≡ turn_of i 0 Spot.Corner c }
{
    if c <= 48 {
        return Spot::Stuck;
    }
    if 57 < c {
        return Spot::Stuck;
    }
    if c - 48 <= i / 3 {
        return Spot::Number(c - 48);
    }
    Spot::Stuck
}

// The byte that ends number i of its kind.
fn ends(i: u32) -> u32
    ensures { result ≡ end_of i }
{
    if i % 3 == 2 {
        return 10;
    }
    32
}

// n with the digit c after it, where one may follow: none after a zero, none past the most.
pub fn grown(n: u32, c: u32, most: u32) -> Option<u32>
    ensures { result ≡ pick (grows n c most) (Some (10 * n + (c - 48))) None }
{
    if c < 48 {
        return None;
    }
    if 57 < c {
        return None;
    }
    if n == 0 {
        return None;
    }
    let m = 10 * (n as u64) + ((c - 48) as u64);
    if (most as u64) < m {
        return None;
    }
    Some(m as u32)
}

// Number i of its kind, n so far: c ends it, and a line that is not at its end goes on with `more`; or c is one more of its digits.
fn onward<F: Fn(u32) -> Spot>(i: u32, n: u32, c: u32, most: u32, more: Spot, so_far: F) -> Spot
    requires { F.IsAlwaysCallable so_far }
    ensures ended { eqb c (end_of i) ≡ true → result ≡ after_number i more }
    ensures goes_on { eqb c (end_of i) ≡ false → grows n c most ≡ true → F.post so_far (10 * n + (c - 48)) result }
    ensures stuck { eqb c (end_of i) ≡ false → grows n c most ≡ false → result ≡ Spot.Stuck }
{
    if c == ends(i) {
        if i % 3 == 2 {
            return Spot::Line;
        }
        return more;
    }
    match grown(n, c, most) {
        Some(m) => so_far(m),
        None => Spot::Stuck,
    }
}

pub fn turn(i: u32, j: u32, spot: Spot, c: u32) -> Spot
    ensures { result ≡ turn_of i j spot c }
{
    match spot {
        Spot::Line => line(i, j, c),
        Spot::AfterV => after_v(c),
        Spot::Coord => coord(c),
        Spot::Minus => minus(c),
        Spot::Above(n) => onward(i, n, c, REACH, Spot::Coord, |m| Spot::Above(m)),
        Spot::Under(n) => onward(i, n, c, REACH, Spot::Coord, |m| Spot::Under(m)),
        Spot::AfterF => after_f(c),
        Spot::Corner => corner(i, c),
        Spot::Number(n) => onward(j, n, c, i / 3, Spot::Corner, |m| Spot::Number(m)),
        Spot::Stuck => Spot::Stuck,
    }
}

pub fn is_stuck(spot: Spot) -> bool
    ensures { result ≡ is_stuck_at spot }
{
    matches!(spot, Spot::Stuck)
}

pub fn is_line(spot: Spot) -> bool
    ensures { result ≡ is_line_at spot }
{
    matches!(spot, Spot::Line)
}
