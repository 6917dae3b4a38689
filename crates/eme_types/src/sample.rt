// Samples and what protects them (ISO/IEC 23001-7).
ghost use Rattle.std.specs.Prelude.{◌≡◌, IfOk};

use crate::items::{Bytes, Copies, Items};
use crate::kid::KeyId;
use std::alloc::AllocError;

/// A protection scheme (ISO/IEC 23001-7 section 10).
#[derive(Clone, Copy, Debug, PartialEq, Eq)]
pub enum Scheme {
    Cenc,
    Cbcs,
}

/// An initialization vector.
#[derive(Clone, Copy, Debug, PartialEq, Eq)]
pub enum Iv {
    Eight([u8; 8]),
    Sixteen([u8; 16]),
}

/// A subsample: bytes left clear, and protected bytes behind them.
#[derive(Clone, Copy, Debug, PartialEq, Eq)]
pub struct Sub {
    pub clear: u16,
    pub prot: u32,
}

pub type Subs = Items<Sub>;

/// The IV size of each sample, in bytes.
pub type IvSizes = Items<u8>;

/// What protects a sample. Without subsamples the whole sample is protected.
#[derive(Drop)]
pub struct Protect {
    pub scheme: Scheme,
    pub kid: KeyId,
    pub iv: Iv,
    /// Encrypted blocks of the pattern; not used in `cenc`.
    pub crypt: u8,
    /// Clear blocks of the pattern; not used in `cenc`.
    pub skip: u8,
    pub subs: Subs,
}

/// A sample as the media has it, protected or clear.
#[derive(Drop)]
pub struct EncSample {
    pub protect: Option<Protect>,
    pub bytes: Bytes,
}

pub type Samples = Items<EncSample>;

impl Copies for Sub {
    fn copy(&self) -> Result<Sub, AllocError> {
        Ok(*self)
    }
}

impl Copies for Protect {
    fn copy(&self) -> Result<Protect, AllocError> {
        Ok(Protect {
            scheme: self.scheme,
            kid: self.kid.copy()?,
            iv: self.iv,
            crypt: self.crypt,
            skip: self.skip,
            subs: self.subs.copy()?,
        })
    }
}

impl Copies for EncSample {
    fn copy(&self) -> Result<EncSample, AllocError> {
        let protect = match &self.protect {
            None => None,
            Some(protect) => Some(protect.copy()?),
        };
        let bytes = self.bytes.copy()?;
        Ok(EncSample { protect, bytes })
    }
}
