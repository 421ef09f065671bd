//! Worked rows of a participant's history, computed from the definitions.
ghost use Rattle.std.specs.Prelude.{◌≡◌, [], ◌∷◌, ◌++◌, Some, None, Ok, codes};
ghost use Rattle.inst_base.specs.declared.fault.Fault.{Fault};
ghost use Rattle.inst_command.specs.declared.line.LineKind.{LineKind};
ghost use Rattle.inst_command.specs.declared.outcome.Outcome.{Outcome};
ghost use Rattle.inst_command.specs.declared.outcome.State.{State};
ghost use Rattle.inst_command.specs.declared.reply.Reply.{Reply};
ghost use Rattle.inst_journal.specs.declared.event.Event.{Event};
ghost use Rattle.inst_journal.specs.Rows.{A, B, C, answers, after, opened_events, asked_fund};
ghost use Rattle.inst_journal.specs.Rows.{defund, asked_submit};
ghost use Rattle.inst_journal.specs.Rows.{too_much};
ghost use Rattle.inst_journal.specs.Rows.{asked_investigate, fetch, asked_position, statement};
ghost use Rattle.inst_journal.specs.Rows.{done, taken};
ghost use Rattle.inst_journal.specs.Rows.{state, money};
ghost use Rattle.inst_journal.specs.Rows.{refused, submitted_events, accepted_events, again};
ghost use Rattle.inst_journal.specs.Rows.{two_places};
ghost use Rattle.inst_journal.specs.Rows.{all_fundings};
ghost use Rattle.inst_journal.specs.Rows.{all_with_a_defunding, arrivals, confirmation, rejection};

/// A transfer that is pending at an opening stays reserved after it, and is settled when its
/// outcome is booked.
pub fn carried_over_an_opening()
    ensures { answers A (opened_events submitted_events)
        (asked_position ∷ asked_investigate (codes "T1") (Some Outcome.Accepted) ∷ asked_position ∷ []) ≡
        money 50000 20000 30000 ∷ state A (codes "T1") (State.Decided Outcome.Accepted)
        ∷ money 30000 0 30000 ∷ [] }
{}

/// Repeats and duplicates are recognised after an opening, for pending and for settled transfers,
/// and add no event.
pub fn repeat_and_duplicate_over_an_opening()
    ensures pending { answers A (opened_events submitted_events) again ≡
        taken (codes "T1") ∷ refused Fault.Duplicate ∷ done (codes "F1") ∷ refused Fault.Duplicate
        ∷ [] }
    ensures settled { answers A (opened_events accepted_events) again ≡
        taken (codes "T1") ∷ refused Fault.Duplicate ∷ done (codes "F1") ∷ refused Fault.Duplicate
        ∷ [] }
    ensures keeps_nothing { after A (opened_events accepted_events) again
        ≡ opened_events accepted_events }
{}

/// An opening frees the place of a settled transfer, but not that of a pending one.
pub fn places_given_back()
    ensures before { answers A two_places (asked_submit (codes "T3") 100 1000 ∷ [])
        ≡ refused Fault.Full ∷ [] }
    ensures after { answers A (opened_events two_places) (asked_submit (codes "T3") 100 1000
        ∷ asked_submit (codes "T4") 100 1000 ∷ []) ≡
        taken (codes "T3") ∷ refused Fault.Full ∷ [] }
{}

/// An opening begins a new statement: with number 1, and from the position of the whole history.
pub fn statement_begins_anew()
    ensures { answers A (opened_events accepted_events)
        (statement ∷ asked_fund (codes "F2") 1000 ∷ statement ∷ []) ≡
        Ok (Reply.Statement []) ∷ done (codes "F2")
        ∷ Ok (Reply.Statement (record {
          number = 1;
          kind = LineKind.Funded;
          other = None;
          id = codes "F2";
          cents = 1000;
          position = 31000;
        } ∷ [])) ∷ [] }
{}

/// An outcome that was booked before an opening is replied again after it, whatever is found, and
/// no event is added.
pub fn outcome_answered_after_an_opening()
    ensures answer { answers A (opened_events accepted_events)
        (asked_investigate (codes "T1") (Some Outcome.TimedOut)
        ∷ []) ≡
        state A (codes "T1") (State.Decided Outcome.Accepted) ∷ [] }
    ensures keeps_nothing { after A (opened_events accepted_events)
        (asked_investigate (codes "T1") (Some Outcome.TimedOut) ∷ []) ≡
        opened_events accepted_events }
{}

/// With all fundings used, a kept reference with another amount is a duplicate, and the same
/// command a repeat. An opening frees the fundings.
pub fn duplicate_before_full()
    ensures full { answers A all_fundings (asked_fund (codes "F1") 11 ∷ asked_fund (codes "F1") 10
        ∷ asked_fund (codes "F5") 50 ∷ []) ≡
        refused Fault.Duplicate ∷ done (codes "F1") ∷ refused Fault.Full ∷ [] }
    ensures opened { answers A (opened_events all_fundings) (asked_fund (codes "F5") 50 ∷ [])
        ≡ done (codes "F5") ∷ [] }
{}

/// A submission to which several refusals apply gets the first: own originator, kept identifier,
/// stamp ahead, reading at the deadline, no place, more than is available.
pub fn submission_refused_by_the_first()
    ensures full { answers A two_places
        (too_much A (codes "T1") 2001 1000 ∷ too_much B (codes "T1") 2001 1000
        ∷ too_much B (codes "T3") 2001 1000
        ∷ too_much B (codes "T3") 1000 11000 ∷ too_much B (codes "T3") 1000 10999 ∷ []) ≡
        refused Fault.SelfTransfer ∷ refused Fault.Duplicate ∷ refused Fault.StampAhead
        ∷ refused Fault.Expired ∷ refused Fault.Full ∷ [] }
    ensures opened { answers A (opened_events two_places)
        (too_much B (codes "T3") 2000 1000 ∷ too_much B (codes "T3") 1000 10999 ∷ []) ≡
        refused Fault.Shortage ∷ refused Fault.Shortage ∷ [] }
{}

/// A defunding to which several refusals apply gets the first: kept reference, no free funding,
/// more than is available. Fund and defund commands share the fundings and the references.
pub fn defunding_refused_by_the_first()
    ensures full { answers A all_with_a_defunding
        (defund (codes "F1") 99 ∷ defund (codes "F5") 99 ∷ asked_fund (codes "D1") 5 ∷ asked_fund (codes "F5") 1
        ∷ defund (codes "D1") 5 ∷ []) ≡
        refused Fault.Duplicate ∷ refused Fault.Full ∷ refused Fault.Duplicate ∷ refused Fault.Full
        ∷ done (codes "D1") ∷ [] }
    ensures opened { answers A (opened_events all_with_a_defunding) (defund (codes "D2") 56
        ∷ defund (codes "D2") 55 ∷ []) ≡
        refused Fault.Shortage ∷ done (codes "D2") ∷ [] }
{}

/// Pages are in order of arrival, also after an opening.
pub fn fetch_in_order_of_arrival()
    ensures pages { answers B arrivals (fetch 2 ∷ fetch 2 ∷ fetch 2 ∷ []) ≡
        Ok (Reply.Inbox (record { from = A; id = codes "T1"; cents = 100; deadline = 11000 }
        ∷ record { from = C; id = codes "T1"; cents = 200; deadline = 11500 } ∷ []))
        ∷ Ok (Reply.Inbox (record { from = A; id = codes "T2"; cents = 300; deadline = 11200 }
        ∷ []))
        ∷ Ok (Reply.Inbox []) ∷ [] }
    ensures kept { after B arrivals (fetch 2 ∷ fetch 2 ∷ fetch 2 ∷ []) ≡
        arrivals ++ Event.Fetched 2 ∷ Event.Fetched 1 ∷ [] }
    ensures over_an_opening { answers B (opened_events (after B arrivals (fetch 2 ∷ [])))
        (fetch 2 ∷ []) ≡
        Ok (Reply.Inbox (record { from = A; id = codes "T2"; cents = 300; deadline = 11200 } ∷ []))
        ∷ [] }
{}

/// A confirmation in the margin, which leaves the transfer pending, is refused and adds no event.
pub fn confirmed_in_the_margin()
    ensures answer { answers B arrivals (confirmation ∷ []) ≡ refused Fault.Expired ∷ [] }
    ensures keeps_nothing { after B arrivals (confirmation ∷ []) ≡ arrivals }
{}

/// A rejection that leaves the transfer pending replies so and adds no event.
pub fn rejected_while_pending()
    ensures answer { answers B arrivals (rejection ∷ []) ≡ state A (codes "T1") State.Pending ∷ [] }
    ensures keeps_nothing { after B arrivals (rejection ∷ []) ≡ arrivals }
{}
