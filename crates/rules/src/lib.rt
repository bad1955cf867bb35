// What every call answers with. The definitions of docs/RULES.md stand in specs/, their laws in proofs/.
#![tactic(auto)]

pub mod numbers;

ghost use Rattle.std.specs.Prelude.{◌≡◌};
ghost use Rattle.rules.specs.Answers.{answer};

// 01, "Refusal numbers": the number, and the place where it was found.
#[derive(Clone, Copy)]
pub struct Refusal {
    pub number: u32,
    pub place: u32,
}

// Vertices, faces and rim sides of the last level.
#[derive(Clone, Copy)]
pub struct Counts {
    pub vertices: u32,
    pub faces: u32,
    pub rims: u32,
}

// One outcome per call: what its last level counts, or the refusal. `answer` of specs/Answers gives the paper's five numbers for each.
pub type Outcome = Result<Counts, Refusal>;

// For C: refusal number or 0, place, vertices, faces, rim sides. An array of five: no answer can be short.
pub fn tell(o: Outcome, told: &mut [u32; 5])
    ensures { told.new ≡ answer o }
{
    match o {
        Ok(c) => {
            let v = c.vertices;
            let f = c.faces;
            let r = c.rims;
            *told = [0, 0, v, f, r];
        }
        Err(r) => {
            let n = r.number;
            let p = r.place;
            *told = [n, p, 0, 0, 0];
        }
    }
}
