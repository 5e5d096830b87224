ghost use Rattle.nak_stream.specs.Windows.{empty_window};
ghost use Rattle.wire_values.specs.Values.{Entry as EntryValue};
ghost use Rattle.std.specs.Prelude.{List};
ghost use Rattle.nak_stream.specs.Orders.{Agrees, AgreeingIsKept, NextIsOfOrder, WindowsAgree, ShorterBegins, MergedBegins};

/// The laws of windows that agree with one order of a view's messages: an empty one does; one that does goes on to agree as entries of the order come,
/// are delivered and are let go, and as the order grows; what was delivered stays a beginning of the order; and two such windows hold the
/// same where both hold something.
pub fn windows_agree()
    ensures empty { (order : List EntryValue) → Agrees order empty_window }
    ensures kept { AgreeingIsKept }
    ensures next { NextIsOfOrder }
    ensures same { WindowsAgree }
{}

/// The laws of the beginnings of one list: of two of them the shorter is a beginning of the longer; and a beginning, merged with a part of the
/// list that begins at or below its end and reaches at least as far, is the longer beginning.
pub fn beginnings_agree<T>()
    ensures shorter { ShorterBegins T }
    ensures merged { MergedBegins T }
{}
