// The sample book of document 01, cases (a) to (l): proved by computing them.
#![tactic(auto)]

ghost use Rattle.sample_book.specs.Cases.{SampleBook};

pub fn cases()
    ensures { SampleBook }
{}
