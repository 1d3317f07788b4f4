ghost use Rattle.otp_model.specs.Laws.{HasOneList, HasPages, PagesJoin};
ghost use Rattle.otp_model.specs.OneHistory.{HasOneHistory};

/// Who begins without a cursor and follows the cursor behind each page, at one commit number and with the
/// other parameters kept, until no more follow, has the values of the whole list, each once and in order.
/// Each page may be cut from a whole list of its own: they have the same values. Each request that has a
/// whole list has such pages. It does nothing when it runs.
pub fn pages_join()
    ensures one { HasOneList }
    ensures join { PagesJoin }
    ensures pages { HasPages }
{}

/// Whatever updates, commits and requests come, in whatever order: there is one history of commits, of which each session knows
/// beginnings that grow, which the accepted messages of each real-time feed make up in their order; and each plan and each status is
/// answered over the history that its session took last since it was opened, or over an earlier one since then that it is
/// pinned to. It does nothing when it runs.
pub fn one_history()
    ensures { HasOneHistory }
{}
