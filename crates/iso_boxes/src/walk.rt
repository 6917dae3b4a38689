//! The walk over boxes (ISO/IEC 14496-12 section 4.2).
ghost use Rattle.std.specs.Prelude.{◌≡◌, ℕ, ◌+◌, ◌<◌, ◌≤◌, ◌^◌, length, IfOk, IfSome, take, drop};
ghost use Rattle.std.specs.Result.{result_map_both};
ghost use Rattle.iso_boxes.specs.Walk as walk_spec;
ghost use Rattle.std.specs.Prelude.{find, bytes_eq};
ghost use Rattle.std.specs.Option.{option_map};
ghost use Rattle.iso_boxes.specs.Walk.{Found, Left, lengths, found, inside};

use std::marker::Model;

/// The first broken rule of a box's header. The place is that of the box's first byte.
#[derive(Clone, Copy, Debug, PartialEq, Eq)]
pub enum BoxFault {
    /// The header is cut short.
    Short { place: u64 },
    /// The size is below the length of the header, or is 0 inside a box.
    SizeTooSmall { place: u64 },
    /// The box ends behind the bytes around it.
    PastEnd { place: u64 },
}

/// A box: its type, the place of its first byte, its body, and the place of the body's first byte. It borrows the body from the
/// bytes that were walked.
#[derive(Clone, Copy)]
pub struct BoxRef<'a> {
    pub kind: [u8; 4],
    pub place: u64,
    pub body: &'a [u8],
    pub body_place: u64,
}

/// A walk over boxes, and seen as what is left of it: the bytes, the place of the first, and whether they are at the top.
#[derive(Drop)]
pub struct Boxes<'a> {
    bytes: &'a [u8],
    place: u64,
    top: bool,
}

impl<'a> Model for Boxes<'a> {
    ghost use Rattle.std.specs.Prelude.{◌+◌, ◌<◌, ◌^◌, length};
    ghost use Rattle.iso_boxes.specs.Walk.{Left};

    ghost Value = { Left };

    ghost view = { λ b. record { bytes = b.bytes.now; place = b.place; top = b.top } };

    ghost invariant = { λ b. b.place + length b.bytes.now < 2 ^ 64 };
}

impl<'a> Boxes<'a> {
    ghost use Rattle.std.specs.Prelude.{◌↔◌, IfErr, IfOk, Ok, None};
    ghost use Rattle.std.specs.Option.{option_map};
    ghost use Rattle.std.specs.Result.{result_map_both};
    ghost use Rattle.std.specs.Prelude.{◌<◌};
    ghost use Rattle.iso_boxes.specs.Walk.{next_box, after_next, found, boxes_left, walk, Steps, Rests, LiesIn};

    /// A walk over bytes whose first has the place `base`. At the top level a size of 0 means 'to the end'.
    #[tactic(auto, unfolding(crate::specs::Walk::walk))]
    pub fn new(bytes: &'a [u8], base: u64, top: bool) -> Boxes<'a>
        requires { base + length bytes.now < 2 ^ 64 }
        ensures { boxes_left result ≡ walk bytes.now base top }
    {
        Boxes {
            bytes,
            place: base,
            top,
        }
    }

    /// The same walk once more, from where it stands.
    pub fn copy(&self) -> Boxes<'a>
        ensures { result ≡ self.now }
    {
        Boxes {
            bytes: self.bytes,
            place: self.place,
            top: self.top,
        }
    }

    /// The next box, or none at the end. A fault comes again at each further call.
    pub fn next_box(&mut self) -> Result<Option<BoxRef<'a>>, BoxFault>
        ensures walks { Steps result (boxes_left self.old) (boxes_left self.new) }
        ensures rests { Rests result self.old self.new }
        ensures end { (result ≡ Ok None) ↔ (length self.old.bytes ≡ 0) }
        ensures lies { IfOk result (λ o. IfSome o (λ b. LiesIn self.old.bytes self.old.place (found b))) }
        ensures shorter { IfOk result (λ o. IfSome o (λ b. length self.new.bytes < length self.old.bytes)) }
        ensures fits { IfOk result (λ o. IfSome o (λ b. b.body_place + length b.body.now < 2 ^ 64)) }
    {
        self.advance()
    }

    #[tactic(auto, unfolding(crate::specs::Walk::next_box, crate::specs::Walk::after_next))]
    fn advance(&mut self) -> Result<Option<BoxRef<'a>>, BoxFault>
        ensures gives { result_map_both (option_map found) (λ f. f) result ≡ next_box self.old }
        ensures moves { self.new ≡ after_next self.old }
        ensures shorter { IfOk result (λ o. IfSome o (λ b. length self.new.bytes < length self.old.bytes)) }
        ensures fits { IfOk result (λ o. IfSome o (λ b. b.body_place + length b.body.now < 2 ^ 64)) }
    {
        if self.bytes.is_empty() {
            return Ok(None);
        }
        match first_box(self.bytes, self.place, self.top) {
            Ok((at, rest)) => {
                self.place += (self.bytes.len() - rest.len()) as u64;
                self.bytes = rest;
                Ok(Some(at))
            }
            Err(fault) => Err(fault),
        }
    }
}

#[tactic(auto, unfolding(crate::specs::Walk::lengths))]
fn lengths(bytes: &[u8], top: bool) -> Option<(u64, u64)>
    ensures value { result ≡ lengths bytes.now top }
    ensures long { IfSome result (λ l. (8 ≤ length bytes.now) × (8 ≤ l.0)) }
{
    if bytes.len() < 8 {
        return None;
    }
    let size = u32::from_be_bytes([bytes[0], bytes[1], bytes[2], bytes[3]]);
    if size == 1 {
        if bytes.len() < 16 {
            None
        } else {
            let size = u64::from_be_bytes([
                bytes[8], bytes[9], bytes[10], bytes[11], bytes[12], bytes[13], bytes[14],
                bytes[15],
            ]);
            Some((16, size))
        }
    } else if size == 0 && top {
        Some((8, bytes.len() as u64))
    } else {
        Some((8, u64::from(size)))
    }
}

// The box at the front and the bytes behind it.
#[tactic(auto, unfolding(crate::specs::Walk::first_box))]
fn first_box(bytes: &[u8], place: u64, top: bool) -> Result<(BoxRef<'_>, &[u8]), BoxFault>
    requires { place + length bytes.now < 2 ^ 64 }
    ensures value { result_map_both (λ x. (walk_spec.found x.0, x.1.now)) (λ f. f) result ≡ walk_spec.first_box bytes.now place top }
    ensures shorter { IfOk result (λ x. length x.1.now < length bytes.now) }
    ensures fits { IfOk result (λ x. x.0.body_place + length x.0.body.now < 2 ^ 64) }
{
    let Some((header, len)) = lengths(bytes, top) else {
        return Err(BoxFault::Short { place });
    };
    if len < header {
        return Err(BoxFault::SizeTooSmall { place });
    }
    if (bytes.len() as u64) < len {
        return Err(BoxFault::PastEnd { place });
    }
    let (whole, rest) = bytes.split_at(len as usize);
    let at = BoxRef {
        kind: kind(bytes),
        place,
        body: &whole[header as usize..],
        body_place: place + header,
    };
    Ok((at, rest))
}

fn kind(bytes: &[u8]) -> [u8; 4]
    requires { 8 ≤ length bytes.now }
    ensures { result ≡ take 4 (drop 4 bytes.now) }
{
    [bytes[4], bytes[5], bytes[6], bytes[7]]
}

/// The first box of a type inside a box, and the header that is broken behind the boxes, if one is.
pub fn first_inside<'a>(at: &BoxRef<'a>, kind: [u8; 4]) -> (Option<BoxRef<'a>>, Option<BoxFault>)
    requires { at.now.body_place + length at.now.body.now < 2 ^ 64 }
    ensures first { option_map found result.0 ≡ find (λ b. bytes_eq b.kind kind) (inside (found at.now)).boxes }
    ensures fits { IfSome result.0 (λ b. b.body_place + length b.body.now < 2 ^ 64) }
    ensures end { result.1 ≡ (inside (found at.now)).fault }
{
    let mut first = None;
    let mut boxes = Boxes::new(at.body, at.body_place, false);
    loop {
        match boxes.next_box() {
            Ok(Some(inner)) => {
                if first.is_none() && inner.kind == kind {
                    first = Some(inner);
                }
            }
            Ok(None) => return (first, None),
            Err(fault) => return (first, Some(fault)),
        }
    }
}
