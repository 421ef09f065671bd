//! Laws of written replies and steps: functions without a body, whose contract is the law.
ghost use Rattle.inst_json.specs.Laws.{WhatIsWrittenReadsBack, ATextTellsItsReply};
ghost use Rattle.inst_json.specs.Laws.{WhatIsWrittenOfAStepReadsBack};

/// Law: the text of a reply is JSON that reads back as the reply's object.
pub fn what_is_written_reads_back()
    ensures { WhatIsWrittenReadsBack }
{}

/// Law: two replies with the same text are the same reply, or statements with the same lines of
/// text.
pub fn a_text_tells_its_reply()
    ensures { ATextTellsItsReply }
{}

/// Law: the line of a step reads back as the step.
pub fn what_is_written_of_a_step_reads_back()
    ensures { WhatIsWrittenOfAStepReadsBack }
{}
