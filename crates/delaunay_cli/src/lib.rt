//! The program's top call: from the bytes of an edit file to the text of its mesh, of its shapes, of the least alphas
//! of its faces, of its solid parts or of the nearest points to its queries; from the text of a mesh to the verdict on
//! it; and from two numbers to the text of a drawn file or the summary of its mesh.
//!
//! ```
//! let run = run(&rt, alloc, &words, &mut input, &mut output, &mut error, &OpenGate);
//! ExitCode::from(run.status)  // `run.kept` is the history, on 0, 4, 8 and 9
//! ```
#![tactic(auto)]

mod drawn;
mod mesh;
mod mesh_lists;
mod mesh_of_lines;
mod mesh_of_source;
mod near;
mod parted;
mod reported;
mod stepped;
mod top;
mod work;

pub use command_ends::{Run, laws};
pub use top::run;
