ghost use Rattle.raptor_rounds.specs.Laws.{BagsCover};

/// After rounds each beginning of a journey at a departure that was seen, with no more rides than asked for, is covered by
/// the labels of its last stop for no more rides; or it is lost: whatever goes on from it, some journey that was found is as
/// good. It does nothing when it runs.
pub fn bags_cover()
    ensures { BagsCover }
{}
