//! The Delaunay complex of points, the least alphas of its faces, and a mesh that is edited, for whatever calls C.
//!
//! The header is `python/c/delaunay_c.h`. A slice crosses as a pointer and a length, and `Global` as nothing.
//!
//! ```c
//! uint8_t status = delaunay_c_mesh(given, n, points, n, cells, c, neighbours, c, hull, h, &sizes);
//!
//! struct delaunay_c_handle handle = {0};
//! status = delaunay_c_open(&handle, given, n);
//! status = delaunay_c_add(&handle, &place, &reply);
//! delaunay_c_close(&handle);
//! ```
#![tactic(auto)]

mod cloud;
mod codes;
mod edited;
mod filtered;
mod looks;
mod many;
mod parts;
