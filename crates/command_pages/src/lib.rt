//! What the commands of the program read and write, without threads that edit: the file that a source tells, the parts
//! of its report, the verdict on a mesh, and the pages that are put out.
//!
//! ```
//! let file = file_of_source(alloc, src)?;                 // or why it is none, as the status and the line of a stop
//! let made = check_source(alloc, src)?;                   // the verdict on the text of a mesh
//! put_page(rt, alloc, made.page, out)?;                   // its bytes, or a report by threads
//! ```
#![tactic(auto)]

mod checked;
mod cloud;
mod edit_file;
mod made;
mod page;
mod parts;
mod replies;
mod shapes;
mod telling;
mod text;

pub use checked::check_source;
pub use cloud::made_of_points;
pub use edit_file::file_of_source;
pub use made::{Form, Made, Page, Parts};
pub use page::put_page;
pub use parts::parts_of;
