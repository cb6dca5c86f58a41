//! A law of plays, the model's runs of scripts.
//! It is a function with an empty body, whose contract is the law.
ghost use Rattle.mt_alone.specs.Savepoints.{GoesBackAlike, WhatCountsLeads};

/// Of an open transaction the calls that count lead to where all of its calls lead, whatever lines were played, and
/// each of them replied as it does without the others. So after `back N` a transaction finds what its first N
/// operations left, of those that counted. And `back N` leaves such calls as it does within any schedule, where the
/// reply of an inverse is known from what it takes back.
pub fn what_counts_leads()
    ensures leads { WhatCountsLeads }
    ensures alike { GoesBackAlike }
{}
