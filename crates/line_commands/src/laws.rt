//! Laws of the definitions, each the contract of a function that does nothing.

ghost use Rattle.line_commands.specs.Laws.{OneReading, AskedIsRead, OneRefusal};

/// A line spells at most one request.
pub fn one_reading()
    // promise: a_line_is_read_as_it_is_spelled
    ensures { OneReading }
{}

/// A line that spells a request isn't refused.
pub fn asked_is_read()
    // promise: a_line_is_read_as_it_is_spelled
    ensures { AskedIsRead }
{}

/// A line that spells no request has one first reason for that.
pub fn one_refusal()
    // promise: a_line_is_read_as_it_is_spelled
    ensures { OneRefusal }
{}
