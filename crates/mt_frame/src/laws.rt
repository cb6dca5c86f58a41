// The laws of the texts, each the contract of a function with nothing to do.
ghost use Rattle.mt_frame.specs.Laws.{OneBatch, OneBody, BatchReadBack, LengthOfText, OneSlot};

/// A law: whatever follows a batch's text, the batch is read from it and nothing else. No batch
/// begins another, and no bytes are the rows of two lists of records.
pub fn batches_are_read_back()
    ensures one_batch { OneBatch }
    ensures one_body { OneBody }
    ensures read_back { BatchReadBack }
{}

/// A law: each record's length is that of its text.
pub fn lengths_are_of_texts()
    ensures { LengthOfText }
{}

/// A law: no bytes are the text of two master slots.
pub fn slots_are_read_back()
    ensures { OneSlot }
{}
