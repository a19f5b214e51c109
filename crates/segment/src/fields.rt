//! Reads numbers and texts at the beginning of bytes.

ghost use Rattle.std.specs.Prelude.{◌≡◌};
ghost use Rattle.std.specs.Option.{option_map};
ghost use Rattle.std.specs.Int.{w8, w16, w32, w64, w128};
ghost use Rattle.segment.specs.Private.Reading.{number_at, text_at, record_bytes_at};

#[tactic(auto, unfolding(crate::specs::Private::Reading::number_at))]
pub(crate) fn read_u8(bytes: &[u8]) -> Option<(u8, &[u8])>
    ensures { number_at w8 bytes.now ≡ option_map (λ p. (p.0, p.1.now)) result }
{
    let (front, rest) = bytes.split_first_chunk::<1>()?;
    Some((u8::from_be_bytes(*front), rest))
}

#[tactic(auto, unfolding(crate::specs::Private::Reading::number_at))]
pub(crate) fn read_u16(bytes: &[u8]) -> Option<(u16, &[u8])>
    ensures { number_at w16 bytes.now ≡ option_map (λ p. (p.0, p.1.now)) result }
{
    let (front, rest) = bytes.split_first_chunk::<2>()?;
    Some((u16::from_be_bytes(*front), rest))
}

#[tactic(auto, unfolding(crate::specs::Private::Reading::number_at))]
pub(crate) fn read_u32(bytes: &[u8]) -> Option<(u32, &[u8])>
    ensures { number_at w32 bytes.now ≡ option_map (λ p. (p.0, p.1.now)) result }
{
    let (front, rest) = bytes.split_first_chunk::<4>()?;
    Some((u32::from_be_bytes(*front), rest))
}

#[tactic(auto, unfolding(crate::specs::Private::Reading::number_at))]
pub(crate) fn read_u64(bytes: &[u8]) -> Option<(u64, &[u8])>
    ensures { number_at w64 bytes.now ≡ option_map (λ p. (p.0, p.1.now)) result }
{
    let (front, rest) = bytes.split_first_chunk::<8>()?;
    Some((u64::from_be_bytes(*front), rest))
}

#[tactic(auto, unfolding(crate::specs::Private::Reading::number_at))]
pub(crate) fn read_u128(bytes: &[u8]) -> Option<(u128, &[u8])>
    ensures { number_at w128 bytes.now ≡ option_map (λ p. (p.0, p.1.now)) result }
{
    let (front, rest) = bytes.split_first_chunk::<16>()?;
    Some((u128::from_be_bytes(*front), rest))
}

#[tactic(auto, unfolding(crate::specs::Private::Reading::text_at))]
pub(crate) fn read_text(bytes: &[u8]) -> Option<(&[u8], &[u8])>
    ensures { text_at bytes.now ≡ option_map (λ p. (p.0.now, p.1.now)) result }
{
    let (len, rest) = read_u16(bytes)?;
    rest.split_at_checked(usize::from(len))
}

/// The fields of the first record of a plain segment, without the four bytes of its length, and the
/// bytes after the record.
#[tactic(auto, unfolding(crate::specs::Private::Reading::record_bytes_at))]
pub(crate) fn read_record_bytes(bytes: &[u8]) -> Option<(&[u8], &[u8])>
    ensures { record_bytes_at bytes.now ≡ option_map (λ p. (p.0.now, p.1.now)) result }
{
    let (len, rest) = read_u32(bytes)?;
    if len < 4 {
        return None;
    }
    rest.split_at_checked((len - 4) as usize)
}
