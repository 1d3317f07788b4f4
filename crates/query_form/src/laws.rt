ghost use Rattle.query_form.specs.Laws.{NextLeadsOn};

/// A query without a cursor, to which the text of a cursor is added as `&cursor=TEXT`, asks for what it asked
/// for before, from that cursor on. The `next` of a reply is such a text: that of the cursor behind its page. It
/// does nothing when it runs.
pub fn next_leads_on()
    ensures { NextLeadsOn }
{}
