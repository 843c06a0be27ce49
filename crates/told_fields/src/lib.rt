// Fields that are told as they are read: numbers, texts and reasons, by the element that they stand in (0 outside elements) and their tags.
// Behind a failure nothing more is read, and what is told there means nothing: whoever lends the words looks at the cursor first.
#![tactic(auto)]

pub mod numbers; // numbers.rt: numbers of a range, and refusals
pub mod reasons; // reasons.rt: reasons, which have an extension marker
pub mod texts; // texts.rt: texts whose length is a number of a range
