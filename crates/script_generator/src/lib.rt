// The generator of scripts: one script for each seed and size, of families of objects in four shapes.
//
// Two of the shapes are garbage that only a cycle can free, a circle of two bridges and a circle of two peers; two are
// kept by a static until a later family takes its place. A script is made by one call, and is then its caller's, to run
// or to print:
//
//     let script = generate(alloc, 7, 2000)?;        // 2,000 families, and a line `c cycle` behind each hundredth
//     let history = run_serial(rt, alloc, script.lines())?;
//
// What is promised: the script is exactly the list of lines that the definitions have for the seed and the size;
// without memory there is none. Nothing is drawn at random or kept between calls, and no other thread has a part in it.
//
// `specs/Families.antt` has the shapes, `specs/Generated.antt` says which script a seed and a size have, and
// `specs/Laws.antt` what is known of all of them: how long they are, that they are within the limits of a script, and
// that each static is written by one thread alone.
#![tactic(auto)]

mod families;
mod laws;
mod scripts;

pub use laws::{generated_scripts_fit, known_scripts, statics_have_one_writer};
pub use scripts::generate;
