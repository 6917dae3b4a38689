//! The boxes of common encryption (ISO/IEC 23001-7) and the sample groups that carry it, read and written.
#![tactic(auto)]

mod aux_type;
mod fault;
mod saio;
mod saiz;
mod sbgp;
mod schm;
mod seig;
mod senc;
mod sgpd;
mod sinf;
mod tenc;
#[cfg(test)]
mod tests;

pub use fault::{ProtFault, ProtKind};
pub use saio::{Offsets, Saio, put_saio, read_saio};
pub use saiz::{Saiz, put_saiz, read_saiz};
pub use sbgp::{Sbgp, SbgpItem, SbgpItems, put_sbgp, read_sbgp};
pub use schm::{Schm, put_schm, read_schm};
pub use seig::Seig;
pub use senc::{Senc, SencItem, SencItems, put_senc, read_senc, read_senc_item};
pub use sgpd::{Seigs, Sgpd, put_sgpd, read_sgpd};
pub use sinf::{Sinf, put_sinf, read_sinf};
pub use tenc::{Tenc, put_tenc, read_tenc};
