// `plaincut`: what `platecut` writes, by the plain engine, which keeps no links between faces.
#![tactic(auto)]

use sheet::Plain;

fn main() {
    cutting::run::<Plain>(
        b"plaincut: the listing could not be written whole. Do not cast from it.\n",
    );
}
