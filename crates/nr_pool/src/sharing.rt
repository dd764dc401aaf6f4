//! Two texts that have their first elements in common.
ghost use Rattle.std.specs.Prelude.{◌≡◌, ℕ, ◌+◌, ◌<◌, ◌≤◌, true, false, None, Some, IsErr, IfOk};
ghost use Rattle.nr_pool.specs.Texts.{IsOpen, holders, used, without_text};
ghost use Rattle.nr_pool.specs.Sharing.{IsShared, MayShare, HasRoom, seen, is_part, is_shared};

use crate::packed::Packed;
use crate::{Full, Id};

/// A text, the part, that is the first `len` elements of another, the whole. They are kept once, as the whole's.
#[derive(Clone, Copy, Drop)]
pub(crate) struct Share {
    pub(crate) part: Id,
    pub(crate) whole: Id,
    pub(crate) len: usize,
}

/// Whether a text is the part of a whole.
#[inline(always)]
pub(crate) fn is_part(share: &Option<Share>, id: Id) -> bool
    ensures { result ≡ is_part share.now id }
{
    match share {
        None => false,
        Some(share) => share.part.is(id),
    }
}

/// Whether a text is a whole, or the part of one.
#[inline(always)]
pub(crate) fn is_shared(share: &Option<Share>, id: Id) -> bool
    ensures { result ≡ is_shared share.now id }
{
    match share {
        None => false,
        Some(share) => share.part.is(id) || share.whole.is(id),
    }
}

/// How many elements all texts have.
#[inline(always)]
pub(crate) fn used<T: Copy>(texts: &Packed<T>, share: &Option<Share>) -> usize
    requires { MayShare texts.now share.now }
    ensures value { result ≡ used (seen texts.now share.now) }
    ensures within { result ≤ texts.now.capacity }
{
    match share {
        None => texts.used(),
        Some(share) => texts.used() + share.len,
    }
}

/// Gives the part elements of its own.
fn part<T: Copy>(texts: &mut Packed<T>, share: Share)
    requires { IsShared texts.old share }
    ensures { texts.new ≡ seen texts.old (Some share) }
{
    // There is room: these elements are counted twice.
    let _ = texts.copy_first(share.whole, share.len, share.part);
}

/// Gives the part elements of its own where that is wanted.
pub(crate) fn part_if<T: Copy>(
    texts: &mut Packed<T>,
    share: Option<Share>,
    wanted: bool,
) -> Option<Share>
    requires { MayShare texts.old share }
    ensures parted { wanted ≡ true → (result ≡ None) × (texts.new ≡ seen texts.old share) }
    ensures same { wanted ≡ false → (result ≡ share) × (texts.new ≡ texts.old) }
{
    if !wanted {
        return share;
    }
    if let Some(share) = share {
        part(texts, share);
    }
    None
}

/// Sees to it that a text is not the part of a whole.
#[inline(always)]
pub(crate) fn whole_only<T: Copy>(
    texts: &mut Packed<T>,
    share: Option<Share>,
    id: Id,
) -> Option<Share>
    requires { MayShare texts.old share }
    ensures seen { seen texts.new result ≡ seen texts.old share }
    ensures may { MayShare texts.new result }
    ensures whole { is_part result id ≡ false }
    ensures fewer { (other : ℕ) → is_part share other ≡ false → is_part result other ≡ false }
{
    let wanted = is_part(&share, id);
    part_if(texts, share, wanted)
}

/// Sees to it that a text can be removed: no other has elements of it.
#[inline(always)]
pub(crate) fn removable<T: Copy>(
    texts: &mut Packed<T>,
    share: Option<Share>,
    id: Id,
) -> Option<Share>
    requires may { MayShare texts.old share }
    requires is_open { IsOpen texts.old id }
    ensures removed { seen (without_text texts.new id) result ≡ without_text (seen texts.old share) id }
    ensures may { MayShare (without_text texts.new id) result }
    ensures holders { holders texts.new id ≡ holders texts.old id }
{
    if is_part(&share, id) {
        return None;
    }
    let wanted = is_shared(&share, id);
    part_if(texts, share, wanted)
}

/// Makes ready for `count` elements more at the end of a text: it is not the part of a whole. It fails where two texts
/// share elements and there is no room for so many more, and then nothing has changed.
#[inline(always)]
pub(crate) fn ready_for<T: Copy>(
    texts: &mut Packed<T>,
    share: Option<Share>,
    id: Id,
    count: usize,
) -> Result<Option<Share>, Full>
    requires { MayShare texts.old share }
    ensures full { IsErr result → texts.old.capacity < used (seen texts.old share) + count }
    ensures within { IsErr result → used (seen texts.old share) ≤ texts.old.capacity }
    ensures same { IsErr result → texts.new ≡ texts.old }
    ensures seen { IfOk result (λ new. seen texts.new new ≡ seen texts.old share) }
    ensures may { IfOk result (λ new. MayShare texts.new new) }
    ensures room { IfOk result (λ new. HasRoom texts.new new count) }
    ensures whole { IfOk result (λ new. is_part new id ≡ false) }
{
    if share.is_none() {
        return Ok(None);
    }
    if count > texts.element_memory() - used(texts, &share) {
        return Err(Full);
    }
    Ok(whole_only(texts, share, id))
}
