//! Fields of fixed layouts, read from the front. Each reader answers none exactly where the bytes end before the field does.
ghost use Rattle.std.specs.Prelude.{◌≡◌, ℕ, Option, Some, None, ◌≤◌, length};
ghost use Rattle.std.specs.Option.{option_map};
ghost use Rattle.std.specs.Int.{w8, w16, w32, w64};
ghost use Rattle.iso_boxes.specs.Fields.{number_at, number24_at, signed_at, bytes_at};

/// A number of 8 bits, and what is behind it.
pub fn u8_at(bytes: &[u8]) -> Option<(u8, &[u8])>
    ensures { option_map (λ x. (x.0, x.1.now)) result ≡ number_at w8 bytes.now }
{
    match bytes {
        [first, rest @ ..] => Some((*first, rest)),
        [] => None,
    }
}

/// A number of 16 bits, big-endian, and what is behind it.
pub fn u16_at(bytes: &[u8]) -> Option<(u16, &[u8])>
    ensures { option_map (λ x. (x.0, x.1.now)) result ≡ number_at w16 bytes.now }
{
    if bytes.len() < 2 {
        return None;
    }
    let (front, rest) = bytes.split_at(2);
    Some((u16::from_be_bytes([front[0], front[1]]), rest))
}

/// A number of 32 bits, big-endian, and what is behind it.
pub fn u32_at(bytes: &[u8]) -> Option<(u32, &[u8])>
    ensures { option_map (λ x. (x.0, x.1.now)) result ≡ number_at w32 bytes.now }
{
    if bytes.len() < 4 {
        return None;
    }
    let (front, rest) = bytes.split_at(4);
    Some((
        u32::from_be_bytes([front[0], front[1], front[2], front[3]]),
        rest,
    ))
}

/// A number of 64 bits, big-endian, and what is behind it.
pub fn u64_at(bytes: &[u8]) -> Option<(u64, &[u8])>
    ensures { option_map (λ x. (x.0, x.1.now)) result ≡ number_at w64 bytes.now }
{
    if bytes.len() < 8 {
        return None;
    }
    let (front, rest) = bytes.split_at(8);
    Some((
        u64::from_be_bytes([
            front[0], front[1], front[2], front[3], front[4], front[5], front[6], front[7],
        ]),
        rest,
    ))
}

/// The first 16 bytes, and what is behind them.
pub fn bytes16(bytes: &[u8]) -> Option<([u8; 16], &[u8])>
    ensures { option_map (λ x. (x.0, x.1.now)) result ≡ bytes_at 16 bytes.now }
{
    if bytes.len() < 16 {
        return None;
    }
    let (front, rest) = bytes.split_at(16);
    Some((
        [
            front[0], front[1], front[2], front[3], front[4], front[5], front[6], front[7],
            front[8], front[9], front[10], front[11], front[12], front[13], front[14], front[15],
        ],
        rest,
    ))
}

/// The first 4 bytes, and what is behind them.
pub fn bytes4(bytes: &[u8]) -> Option<([u8; 4], &[u8])>
    ensures { option_map (λ x. (x.0, x.1.now)) result ≡ bytes_at 4 bytes.now }
{
    if bytes.len() < 4 {
        return None;
    }
    let (front, rest) = bytes.split_at(4);
    Some(([front[0], front[1], front[2], front[3]], rest))
}

/// The first 8 bytes, and what is behind them.
pub fn bytes8(bytes: &[u8]) -> Option<([u8; 8], &[u8])>
    ensures { option_map (λ x. (x.0, x.1.now)) result ≡ bytes_at 8 bytes.now }
{
    if bytes.len() < 8 {
        return None;
    }
    let (front, rest) = bytes.split_at(8);
    Some((
        [
            front[0], front[1], front[2], front[3], front[4], front[5], front[6], front[7],
        ],
        rest,
    ))
}

/// A number of 24 bits, big-endian, and what is behind it.
pub fn u24_at(bytes: &[u8]) -> Option<(u32, &[u8])>
    ensures { option_map (λ x. (x.0, x.1.now)) result ≡ number24_at bytes.now }
{
    if bytes.len() < 3 {
        return None;
    }
    let (front, rest) = bytes.split_at(3);
    Some((u32::from_be_bytes([0, front[0], front[1], front[2]]), rest))
}

/// A signed number of 32 bits, big-endian, and what is behind it.
pub fn i32_at(bytes: &[u8]) -> Option<(i32, &[u8])>
    ensures { option_map (λ x. (x.0, x.1.now)) result ≡ signed_at bytes.now }
{
    if bytes.len() < 4 {
        return None;
    }
    let (front, rest) = bytes.split_at(4);
    Some((
        i32::from_be_bytes([front[0], front[1], front[2], front[3]]),
        rest,
    ))
}
