//! Parts of the reader of records, from any bytes: the entry frame with its tree (`read_handover`), and all session,
//! file and list frames in reading order (`read_records`), with the readers that these stand on.
//!
//! The whole reader, with the chunk chain, the bound records and the owners of frames, isn't there yet. What each part
//! gives is exactly what the definitions of reading in order say of the same bytes. A part that meets a broken rule
//! gives none, or the number of the frame that breaks it; memory that runs out is an error of its own (`AllocError`).

pub use crate::bounds::read_bounds;
pub use crate::entry::{HandoverRead, read_handover};
pub use crate::file_frame::file_front;
pub use crate::files::{FileRead, read_file, read_files};
pub use crate::handover::LuoRead;
pub use crate::lists::{ListSheet, list_chain};
pub use crate::pages::{is_frame_number, page_of};
pub use crate::seen::Seen;
pub use crate::session_frame::session_front;
pub use crate::sessions::{RecordsRead, SessionRead, read_records};
pub use crate::slot_reading::{ReadFile, ReadSession, file_slot, session_slot};
