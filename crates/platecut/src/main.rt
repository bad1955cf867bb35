// `platecut`: a sheet from standard input; the listing of its plate, or the refusal, to standard output.
#![tactic(auto)]

use sheet::Linked;

fn main() {
    cutting::run::<Linked>(
        b"platecut: the listing could not be written whole. Do not cast from it.\n",
    );
}
