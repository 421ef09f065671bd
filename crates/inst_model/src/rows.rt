//! Worked scripts, computed from the definitions.
ghost use Rattle.std.specs.Prelude.{◌≡◌, pos, true, false, [], ◌∷◌, Some, reverse, codes};
ghost use Rattle.inst_base.specs.declared.fault.Fault.{Fault};
ghost use Rattle.inst_command.specs.declared.line.LineKind.{LineKind};
ghost use Rattle.inst_command.specs.declared.outcome.Outcome.{Outcome};
ghost use Rattle.inst_command.specs.declared.outcome.State.{State};
ghost use Rattle.inst_command.specs.declared.reply.Answer.{Answer};
ghost use Rattle.inst_command.specs.declared.reply.Reply.{Reply};
ghost use Rattle.inst_journal.specs.declared.event.Event.{Event};
ghost use Rattle.inst_journal.specs.Money.{position};
ghost use Rattle.inst_journal.specs.Sums.{net};
ghost use Rattle.inst_model.specs.Hub.{history};
ghost use Rattle.inst_model.specs.Opening.Opening.{First};
ghost use Rattle.inst_model.specs.Untold.{sum_over_participants, signed_total, untold};
ghost use Rattle.inst_model.specs.Trace.{replies};
ghost use Rattle.inst_model.specs.Rows.{A, B, settings, script_answers, is_done, answer_of_taken};
ghost use Rattle.inst_model.specs.Rows.{is_state};
ghost use Rattle.inst_model.specs.Rows.{is_position, answer_of_fault};
ghost use Rattle.inst_model.specs.Rows.{is_new, confirm_before_expire, expire_before_confirm};
ghost use Rattle.inst_model.specs.Rows.{untold_yet};
ghost use Rattle.inst_model.specs.Rows.{untold_then_learnt, alone, among_others, confirmed_late};
ghost use Rattle.inst_model.specs.Rows.{confirmed_before_delivery, expired_before_taken};
ghost use Rattle.inst_model.specs.Rows.{one_of_two_expired};
ghost use Rattle.inst_model.specs.Rows.{wrong_deliveries_and_stamp_ahead, expired_before_delivery};
ghost use Rattle.inst_model.specs.Rows.{rejected_with_reason, investigate_at_the_deadline};
ghost use Rattle.inst_model.specs.Rows.{confirmed_by_another};
ghost use Rattle.inst_model.specs.Rows.{learnt_twice, answers_with_margin, answers_from};
ghost use Rattle.inst_model.specs.Rows.{on_either_side, fundings_full};
ghost use Rattle.inst_model.specs.Rows.{a_page_of_two, margin_confirmed_before};
ghost use Rattle.inst_model.specs.Rows.{margin_confirmation_refused};
ghost use Rattle.inst_model.specs.Rows.{margin_then_timed_out, margin_after_expire};
ghost use Rattle.inst_model.specs.Rows.{carried_over_an_opening, delivered};
ghost use Rattle.inst_model.specs.Rows.{one_settled, places_given_back};

/// A confirmation just in time counts, though the deadline passes before the originator learns of
/// it.
pub fn confirm_before_expire()
    ensures { script_answers confirm_before_expire ≡
        is_done (codes "F1") ∷ answer_of_taken (codes "T1") 11000 ∷ is_new true
        ∷ is_state A (codes "T1") (State.Decided Outcome.Accepted) ∷ is_new true ∷ is_new false
        ∷ is_position 30000 0 30000 ∷ is_position 20000 0 20000 ∷ [] }
{}

/// A time-out that comes first counts, and a later confirmation with an earlier clock reading
/// doesn't.
pub fn expire_before_confirm()
    ensures answers { script_answers expire_before_confirm ≡
        is_done (codes "F1") ∷ answer_of_taken (codes "T1") 11000 ∷ is_new true ∷ is_new true
        ∷ is_state A (codes "T1") (State.Decided Outcome.TimedOut)
        ∷ is_position 50000 0 50000 ∷ is_position 0 0 0 ∷ [] }
    ensures history { history settings First (reverse expire_before_confirm) B ≡
        Event.Forwarded A (codes "T1") 20000 11000 ∷ Event.Booked A (codes "T1") Outcome.TimedOut
        ∷ [] }
{}

/// Until the originator learns of an accepted transfer its amount stays reserved, and the positions
/// sum to 20000 more than the net funding.
pub fn untold_then_learnt()
    ensures answers { script_answers untold_then_learnt ≡
        is_done (codes "F1") ∷ answer_of_taken (codes "T1") 11000 ∷ is_new true
        ∷ is_state A (codes "T1") (State.Decided Outcome.Accepted)
        ∷ is_position 50000 20000 30000 ∷ is_position 20000 0 20000 ∷ is_new true
        ∷ is_position 30000 0 30000 ∷ [] }
    ensures positions { sum_over_participants settings (λ p.
        position (history settings First (reverse untold_yet) p)) ≡ 70000 }
    ensures net { signed_total settings (λ p. net (history settings First (reverse untold_yet) p))
        ≡ pos 50000 }
    ensures untold { untold settings First (reverse untold_yet) ≡ 20000 }
    ensures learnt { untold settings First (reverse untold_then_learnt) ≡ 0 }
{}

/// The replies to B are the same with and without the traffic of others.
pub fn other_traffic_unseen()
    ensures alone { replies settings First (reverse alone) B ≡
        Answer.Reply (Reply.Inbox (record {
          from = A;
          id = codes "T1";
          cents = 20000;
          deadline =
              11000;
        } ∷ []))
        ∷ is_state A (codes "T1") (State.Decided Outcome.Accepted)
        ∷ Answer.Reply (Reply.Statement (record {
          number = 1;
          kind = LineKind.Received;
          other = Some A;
          id = codes "T1";
          cents = 20000;
          position = 20000;
        } ∷ []))
        ∷ is_position 20000 0 20000 ∷ [] }
    ensures same { replies settings First (reverse among_others) B
        ≡ replies settings First (reverse alone) B }
{}

/// A transfer is delivered once, to its beneficiary. A time stamp may be one second after the clock
/// reading and no more.
pub fn wrong_deliveries_and_stamp_ahead()
    ensures { script_answers wrong_deliveries_and_stamp_ahead ≡
        is_done (codes "F1") ∷ answer_of_taken (codes "T1") 11000 ∷ is_new true
        ∷ is_new false ∷ is_new false ∷ is_new false
        ∷ answer_of_fault Fault.StampAhead ∷ answer_of_taken (codes "T2") 12000 ∷ [] }
{}

/// A transfer that has timed out is no longer forwarded.
pub fn expired_before_delivery()
    ensures { script_answers expired_before_delivery ≡
        is_done (codes "F1") ∷ answer_of_taken (codes "T1") 11000 ∷ is_new true ∷ is_new false
        ∷ answer_of_fault Fault.UnknownTransfer ∷ [] }
{}

/// A confirmation at the deadline times the transfer out.
pub fn confirmed_late()
    ensures { script_answers confirmed_late ≡
        is_done (codes "F1") ∷ answer_of_taken (codes "T1") 11000 ∷ is_new true
        ∷ is_state A (codes "T1") (State.Decided Outcome.TimedOut) ∷ is_new true
        ∷ is_position 50000 0 50000 ∷ is_position 0 0 0 ∷ [] }
{}

/// A beneficiary can't confirm a transfer that wasn't forwarded to it, and the attempt has no
/// effect.
pub fn confirmed_before_delivery()
    ensures { script_answers confirmed_before_delivery ≡
        is_done (codes "F1") ∷ answer_of_taken (codes "T1") 11000 ∷ answer_of_fault Fault.UnknownTransfer
        ∷ is_state A (codes "T1") State.Pending ∷ is_new true ∷ [] }
{}

/// An expiry of a place before its submission has no effect.
pub fn expired_before_taken()
    ensures { script_answers expired_before_taken ≡
        is_done (codes "F1") ∷ is_new false ∷ answer_of_taken (codes "T1") 11000 ∷ is_new true ∷ [] }
{}

/// An expiry times out only the transfer at its place.
pub fn one_of_two_expired()
    ensures { script_answers one_of_two_expired ≡
        is_done (codes "F1") ∷ answer_of_taken (codes "T1") 11000 ∷ answer_of_taken (codes "T2") 11000
        ∷ is_new true
        ∷ is_state A (codes "T1") (State.Decided Outcome.TimedOut)
        ∷ is_state A (codes "T2") State.Pending ∷ [] }
{}

/// A rejection decides, with its reason, and frees the amount.
pub fn rejected_with_reason()
    ensures answers { script_answers rejected_with_reason ≡
        is_done (codes "F1") ∷ answer_of_taken (codes "T1") 11000 ∷ is_new true
        ∷ is_state A (codes "T1") (State.Decided (Outcome.Rejected (codes "AC04")))
        ∷ is_state A (codes "T1") (State.Decided (Outcome.Rejected (codes "AC04")))
        ∷ is_state A (codes "T1") (State.Decided (Outcome.Rejected (codes "AC04")))
        ∷ is_position 50000 0 50000 ∷ [] }
    ensures history { history settings First (reverse rejected_with_reason) B ≡
        Event.Forwarded A (codes "T1") 20000 11000
        ∷ Event.Booked A (codes "T1") (Outcome.Rejected (codes "AC04")) ∷ [] }
{}

/// An investigation before the deadline leaves the transfer pending; one at the deadline times it
/// out.
pub fn investigate_at_the_deadline()
    ensures { script_answers investigate_at_the_deadline ≡
        is_done (codes "F1") ∷ answer_of_taken (codes "T1") 11000 ∷ is_new true
        ∷ is_state A (codes "T1") State.Pending
        ∷ is_state A (codes "T1") (State.Decided Outcome.TimedOut)
        ∷ is_position 50000 0 50000 ∷ [] }
{}

/// Neither a participant to which the transfer wasn't forwarded nor its originator can confirm it.
pub fn confirmed_by_another()
    ensures { script_answers confirmed_by_another ≡
        is_done (codes "F1") ∷ answer_of_taken (codes "T1") 11000 ∷ is_new true
        ∷ answer_of_fault Fault.UnknownTransfer ∷ answer_of_fault Fault.UnknownTransfer
        ∷ is_state A (codes "T1") State.Pending ∷ [] }
{}

/// A second learning changes nothing, nor does one of the beneficiary, which has the outcome.
pub fn learnt_twice()
    ensures answers { script_answers learnt_twice ≡
        is_done (codes "F1") ∷ answer_of_taken (codes "T1") 11000 ∷ is_new true
        ∷ is_state A (codes "T1") (State.Decided Outcome.Accepted)
        ∷ is_new true ∷ is_new false ∷ is_new false ∷ is_position 30000 0 30000 ∷ [] }
    ensures history { history settings First (reverse learnt_twice) A ≡
        Event.Funded (record { reference = codes "F1"; cents = 50000 })
        ∷ Event.Taken (codes "T1") B 20000 1000
        ∷ Event.Booked A (codes "T1") Outcome.Accepted ∷ [] }
{}

/// One millisecond before the deadline an expiry does nothing and a rejection counts. At the
/// deadline a rejection is too late and times the transfer out, and the expiry books that.
pub fn on_either_side()
    ensures { script_answers on_either_side ≡
        is_done (codes "F1") ∷ answer_of_taken (codes "T1") 11000 ∷ is_new true
        ∷ answer_of_taken (codes "T2") 11000 ∷ is_new true ∷ is_new false
        ∷ is_state A (codes "T1") (State.Decided (Outcome.Rejected (codes "AC04")))
        ∷ is_state A (codes "T2") (State.Decided Outcome.TimedOut) ∷ is_new true ∷ [] }
{}

/// With all fundings used, a kept reference with another amount is still a duplicate, a new one is
/// refused as full, and a repeat gets its reply.
pub fn fundings_full()
    ensures { script_answers fundings_full ≡
        is_done (codes "F1") ∷ is_done (codes "F2") ∷ is_done (codes "F3") ∷ is_done (codes "F4")
        ∷ answer_of_fault Fault.Duplicate ∷ answer_of_fault Fault.Full ∷ is_done (codes "F4") ∷ [] }
{}

/// A page has the transfers in order of arrival, and the next page follows it.
pub fn a_page_of_two()
    ensures { script_answers a_page_of_two ≡
        is_done (codes "F1") ∷ answer_of_taken (codes "T1") 11000 ∷ answer_of_taken (codes "T2") 11000
        ∷ is_new true ∷ is_new true
        ∷ Answer.Reply (Reply.Inbox (record {
          from = A;
          id = codes "T2";
          cents = 200;
          deadline =
              11000;
        }
        ∷ record { from = A; id = codes "T1"; cents = 20000; deadline = 11000 } ∷ []))
        ∷ Answer.Reply (Reply.Inbox []) ∷ [] }
{}

/// A confirmation in the last millisecond before the margin is accepted.
pub fn margin_confirmed_before()
    ensures { answers_with_margin margin_confirmed_before ≡
        is_done (codes "F1") ∷ answer_of_taken (codes "T1") 11000 ∷ is_new true
        ∷ is_state A (codes "T1") (State.Decided Outcome.Accepted) ∷ [] }
{}

/// In the margin a confirmation is refused and decides nothing. A rejection still counts, and the
/// next confirmation gets it in the reply.
pub fn margin_confirmation_refused()
    ensures { answers_with_margin margin_confirmation_refused ≡
        is_done (codes "F1") ∷ answer_of_taken (codes "T1") 11000 ∷ is_new true
        ∷ answer_of_fault Fault.Expired ∷ is_position 50000 20000 30000
        ∷ is_state A (codes "T1") (State.Decided (Outcome.Rejected (codes "AC04")))
        ∷ is_state A (codes "T1") (State.Decided (Outcome.Rejected (codes "AC04"))) ∷ [] }
{}

/// A confirmation in the margin leaves the transfer pending, and one at the deadline times it out.
pub fn margin_then_timed_out()
    ensures { answers_with_margin margin_then_timed_out ≡
        is_done (codes "F1") ∷ answer_of_taken (codes "T1") 11000 ∷ is_new true
        ∷ answer_of_fault Fault.Expired ∷ is_state A (codes "T1") (State.Decided Outcome.TimedOut) ∷ [] }
{}

/// A command on a transfer that has timed out gets that reply, even at an earlier clock reading in
/// the margin.
pub fn margin_after_expire()
    ensures { answers_with_margin margin_after_expire ≡
        is_done (codes "F1") ∷ answer_of_taken (codes "T1") 11000 ∷ is_new true ∷ is_new true
        ∷ is_state A (codes "T1") (State.Decided Outcome.TimedOut) ∷ [] }
{}

/// At the next opening a pending transfer is still reserved, its repeat and its duplicate are
/// distinguished, the statement begins anew, and the transfer can be confirmed.
pub fn carried_over_an_opening()
    ensures { answers_from delivered carried_over_an_opening ≡
        is_position 50000 20000 30000 ∷ answer_of_taken (codes "T1") 11000 ∷ answer_of_fault Fault.Duplicate
        ∷ Answer.Reply (Reply.Statement [])
        ∷ is_state A (codes "T1") (State.Decided Outcome.Accepted) ∷ is_new true
        ∷ Answer.Reply (Reply.Statement (record {
          number = 1;
          kind = LineKind.Paid;
          other = Some B;
          id = codes "T1";
          cents = 20000;
          position = 30000;
        } ∷ [])) ∷ [] }
{}

/// At the next opening the place of a settled transfer is free, but not that of a pending one. The
/// settled one keeps its identifier and its outcome; the pending one has the first place.
pub fn places_given_back()
    ensures { answers_from one_settled places_given_back ≡
        answer_of_taken (codes "T3") 13000 ∷ answer_of_fault Fault.Full
        ∷ is_state A (codes "T1") (State.Decided Outcome.Accepted) ∷ answer_of_taken (codes "T1") 11000
        ∷ is_new true ∷ is_state A (codes "T2") (State.Decided Outcome.TimedOut) ∷ [] }
{}
