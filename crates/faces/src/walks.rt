// docs/RULES.md, The mesh: the walks round a vertex, from corner to corner by link words. A corner is the number of the side that leaves it.
ghost use Rattle.std.specs.Prelude.{◌≡◌, ℕ, ◌+◌, ◌-◌, ◌*◌, ◌<◌, length, get_or};
ghost use Rattle.std.proofs.Math.Option.{some};
ghost use Rattle.rules.specs.Mesh as mesh;
ghost use Rattle.faces.specs.Words.{link_of, links_in};
ghost use Rattle.faces.specs.Rings.{Walkable, Steps, Follows, step_of, trip_of, rim_turn, turn_of, valence_of};

use crate::sides::backward;

// A walk is back at the corner where it began, off the rim, or on a further corner.
#[derive(Clone, Copy)]
pub enum Step {
    Home,
    Off,
    Here(usize),
}

pub fn step_to(home: usize, t: usize) -> Step
    ensures { result ≡ step_of (mesh.step_to home (some t)) }
{
    if t == home { Step::Home } else { Step::Here(t) }
}

// `onward` of the side that link word w leads to, in fewer steps: the walks wait on it.
fn after(w: u32) -> u32
    requires { 0 < w }
    ensures { result ≡ mesh.onward (w - 1) }
{
    if w % 3 == 0 { w - 3 } else { w }
}

// `next_face`: across the side that leaves the vertex.
pub fn next_corner(words: &[u32], links: usize, home: usize, s: usize) -> Step
    requires { links + s < length words.now }
    ensures { result ≡ step_of (mesh.step_to home (mesh.through mesh.onward (link_of (get_or words.now (links + s) 0)))) }
{
    let w = words[links + s];
    if w == 0 {
        return Step::Off;
    }
    step_to(home, after(w) as usize)
}

// `prev_face`: across the side that comes to it.
pub fn prev_corner(words: &[u32], links: usize, home: usize, s: usize) -> Step
    requires { links + mesh.backward s < length words.now }
    ensures { result ≡ step_of (mesh.step_to home (link_of (get_or words.now (links + mesh.backward s) 0))) }
{
    let t = words[links + backward(s)] as usize;
    if t == 0 {
        return Step::Off;
    }
    step_to(home, t - 1)
}

// What a walk finds: after so many faces it is back; after so many it is off the rim, with the last corner; or it passes more than there are.
#[derive(Clone, Copy)]
pub enum Trip {
    Closed(usize),
    Ended(usize, usize),
    Long,
}

// From corner s, step by step, past so many faces at most. The steps are `next_corner` or `prev_corner`.
pub fn walk<F: Fn(usize) -> Step>(step: F, nf: usize, s: usize) -> Trip
    requires start { s < 3 * nf }
    requires steps { Steps (F.pre step) (F.post step) nf }
    ensures { (next : ℕ → mesh.Step) → Follows (F.post step) nf next → result ≡ trip_of (mesh.walk next nf (mesh.here s)) }
{
    let mut at = s;
    for n in 0..nf {
        match step(at) {
            Step::Home => return Trip::Closed(n + 1),
            Step::Off => return Trip::Ended(n + 1, at),
            Step::Here(t) => at = t,
        }
    }
    Trip::Long
}

// How the faces lie round a vertex: so many round an inner one; on the rim so many, and the end corner that `next_face` leads to.
#[derive(Clone, Copy)]
pub enum Turn {
    Inner(usize),
    Rim(usize, usize),
    Endless,
}

pub fn rim_turn(back: Trip, end: usize) -> Turn
    ensures { result ≡ rim_turn back end }
{
    match back {
        Trip::Ended(n, _) => Turn::Rim(n, end),
        Trip::Closed(_) | Trip::Long => Turn::Endless,
    }
}

// Round the vertex of corner s.
pub fn turn_round(words: &[u32], links: usize, nf: usize, s: usize) -> Turn
    requires { Walkable words.now links nf s }
    ensures { result ≡ turn_of (mesh.fan (links_in words.now links (3 * nf)) s) }
{
    match walk(|x| next_corner(words, links, s, x), nf, s) {
        Trip::Closed(n) => Turn::Inner(n),
        Trip::Ended(_, end) => rim_turn(walk(|x| prev_corner(words, links, end, x), nf, end), end),
        Trip::Long => Turn::Endless,
    }
}

// Faces round an inner vertex; faces plus one on the rim.
pub fn valence(t: Turn) -> usize
    requires { valence_of t < 18446744073709551616 }
    ensures { result ≡ valence_of t }
{
    match t {
        Turn::Inner(n) => n,
        Turn::Rim(n, _) => n + 1,
        Turn::Endless => 0,
    }
}
