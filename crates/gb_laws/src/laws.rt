//! The laws of runs. Each speaks of every run of valid events; where it speaks of moments, those
//! are the events of the run with each settle taken apart into its deliveries.

ghost use Rattle.gb_machine.specs.LawsDraining.{ClosingLeavesNoneOpen, DrainedComeToAnEnd};
ghost use Rattle.gb_laws.specs.NoneLeft.{NoneLeftMeansAllInUse};
ghost use Rattle.gb_laws.specs.OwnSide.{
  AbsentHasNoOpenOfAp,
  AbsentHasNoOpenOfModule,
  FindsNoneOpen,
  UnwiredHasNoOpenOfFar,
};
ghost use Rattle.gb_laws.specs.OwnWaits.{AwaitsOwnRequest, ServedLeavesNone};
ghost use Rattle.gb_laws.specs.OwnWires.{WiredIsRemembered};
ghost use Rattle.gb_laws.specs.Tickets.{EndsAsTold, LinesAsk, TwowayIsNeverSent, TwowayStays};
ghost use Rattle.gb_machine.specs.Headline.{HeadlineHolds};
ghost use Rattle.gb_machine.specs.Laws.{FactsOfRuns, LawsOfRuns};
ghost use Rattle.gb_machine.specs.LawsBus.{
  EndpointsDiffer,
  LabelsDiffer,
  NamesNameRequests,
  OneItemANumber,
  RepliesAreAwaited,
};
ghost use Rattle.gb_machine.specs.LawsCredits.{CreditsAddUp};
ghost use Rattle.gb_machine.specs.LawsEnds.{
  AnsweredByItsResponder,
  EndsAreTold,
  EndsAtMostOnce,
  EveryEndHasItsCause,
};
ghost use Rattle.gb_machine.specs.LawsFirmware.{FetchedIsTheImage, KeptIsTheImage};
ghost use Rattle.gb_machine.specs.LawsHotPlug.{
  AbsentAfterRemoval,
  NoForeignMessage,
  NoneForgotten,
  NothingLeftAfterRemoval,
  OpenIsLive,
  RememberedForOne,
  RememberedWhileLive,
  WereOpened,
  WiredAtMostOnce,
  WiredByItsRequest,
  WiredOnce,
};
ghost use Rattle.gb_machine.specs.LawsSvc.{
  AwaitedIsTheLast,
  OneEnumerationRequestThenRestarts,
  QuietBeforeRemoval,
  RemovalLeavesNothingWired,
  StaleRequestsMeetLowLevel,
  WiredMeansRouted,
};
ghost use Rattle.gb_machine.specs.Runs.{HoldsAtEachMoment, HoldsThroughout, SettlesAreDeliveries};
ghost use Rattle.gb_machine.specs.Summary.{CountsAddUp};

/// Each request has one outcome at most, and one end and one reply at most are told of it.
pub fn ends_at_most_once()
    ensures { EndsAtMostOnce }
{}

/// What is told of ends is what the outcomes are, and each is of a request that was made.
pub fn ends_are_told()
    ensures { EndsAreTold }
{}

/// A request is answered on its own live connection, and where that is clean by what its own
/// responder replied.
pub fn answered_by_its_responder()
    ensures { AnsweredByItsResponder }
{}

/// A request is cancelled, times out or is disconnected only at a moment at which that came: a
/// cancel of its name, a tick after which its deadline has come, and a disconnect, a removal that
/// is handled or an unwiring of its own connection, which isn't the supervisory controller's.
pub fn every_end_has_its_cause()
    ensures { EveryEndHasItsCause }
{}

/// Where it is told at a moment that a connection is closing, no request that the application
/// processor made on it is open after the moment.
pub fn closing_leaves_none_open()
    ensures { HoldsAtEachMoment ClosingLeavesNoneOpen }
{}

/// Where it is told that a connection is closing, and from some moment on no disconnect of it was
/// done and no removal of its interface was handled, each request that the application processor
/// had open on it before that moment was answered, was cancelled or timed out. A close that drains
/// is such a case, from its drain on.
pub fn drained_requests_come_to_an_end()
    ensures { DrainedComeToAnEnd }
{}

/// Identifiers that are in use on a side of a connection differ, and are from 1 to 65,535.
pub fn labels_differ()
    ensures { LabelsDiffer }
{}

/// Where no identifier is left on a side of a live connection, all 65,535 are in use there.
pub fn none_left_means_all_in_use()
    ensures { NoneLeftMeansAllInUse }
{}

/// On a clean connection each number is in one item at most, of those that wait and that are held.
pub fn one_item_a_number()
    ensures { OneItemANumber }
{}

/// A reply that waits on a clean connection is to a request that is awaited, but for one toward the
/// application processor where its side is closed, and that side then takes nothing.
pub fn replies_are_awaited()
    ensures { RepliesAreAwaited }
{}

/// Live connections have numbers, CPorts of the application processor and far ends of their own.
pub fn endpoints_differ()
    ensures { EndpointsDiffer }
{}

/// What waits and what is held on a connection was told as asked, replied or injected on that
/// connection. A delivery takes the front item from a connection that is live, wired and names the
/// end. It tells what became of that item and what that brings about, and the item is gone then.
pub fn no_foreign_message()
    ensures { NoForeignMessage }
{}

/// An interface is absent from the moment at which its removal is handled to that at which its next
/// insertion is, and no live connection names an interface that is absent.
pub fn absent_after_removal()
    ensures { AbsentAfterRemoval }
{}

/// An open request of the application processor is on a live connection, and its side of
/// that isn't closed.
pub fn open_is_live()
    ensures { HoldsThroughout OpenIsLive }
{}

/// Each live connection but that of the supervisory controller was told as opening, with its number
/// and its ends.
pub fn opening_was_told()
    ensures { HoldsThroughout WereOpened }
{}

/// Nothing that the application processor asked on a connection that named an absent
/// interface is open.
pub fn absent_has_no_open_of_ap()
    ensures { HoldsThroughout AbsentHasNoOpenOfAp }
{}

/// Nothing that a far side asked on a live connection is open where that isn't wired.
pub fn unwired_has_no_open_of_far()
    ensures { HoldsThroughout UnwiredHasNoOpenOfFar }
{}

/// A removal that the application processor handles finds nothing open that the module asked on a
/// connection which is live then.
pub fn removal_finds_none_open()
    ensures { HoldsAtEachMoment FindsNoneOpen }
{}

/// Nothing that a module asked on a connection that named an absent interface is open.
pub fn absent_has_no_open_of_module()
    ensures { HoldsThroughout AbsentHasNoOpenOfModule }
{}

/// Once the removal of an interface is handled nothing is left of it, until its insertion is: it is
/// absent, no live connection names it, and nothing that was asked on a connection which did is
/// open. Each live connection was told with its ends. An open request of the application processor
/// is on a live connection whose side isn't closed.
pub fn nothing_left_after_removal()
    ensures { NothingLeftAfterRemoval }
{}

/// While MODULE_REMOVED of an interface waits toward the application processor, the power level of
/// the interface is at most 1 and none of its connections is wired; so none is where it is handled.
pub fn removal_leaves_nothing_wired()
    ensures { RemovalLeavesNothingWired }
{}

/// While MODULE_REMOVED of an interface waits and its power level is 1, only starts of its
/// enumeration wait toward the supervisory controller, and no answer that its enumeration waits for
/// stands in front of the last such removal.
pub fn quiet_before_removal()
    ensures { QuietBeforeRemoval }
{}

/// While a request to create or destroy a connection that isn't live any more waits toward the
/// supervisory controller, its interface isn't routed.
pub fn stale_requests_meet_low_level()
    ensures { StaleRequestsMeetLowLevel }
{}

/// Where the enumeration of an interface waits for the supervisory controller, it waits for a
/// request of its own to that.
pub fn awaits_own_request()
    ensures { HoldsThroughout AwaitsOwnRequest }
{}

/// Where that request waits no more toward the supervisory controller, no request of the
/// enumeration does.
pub fn served_leaves_none()
    ensures { HoldsThroughout ServedLeavesNone }
{}

/// The enumeration of an interface waits for the last of its requests to the supervisory
/// controller, and none waits there once that one was served. Where it waits for the module, or is
/// done, none waits there.
pub fn awaited_is_the_last()
    ensures { AwaitedIsTheLast }
{}

/// Of the requests of an enumeration that wait toward the supervisory controller each but the first
/// is a start, and no request to create or destroy another connection of the interface stands
/// behind one of them.
pub fn one_enumeration_request_then_restarts()
    ensures { OneEnumerationRequestThenRestarts }
{}

/// A connection that is wired, but for that of the supervisory controller, is at a routed interface
/// where a module is plugged.
pub fn wired_means_routed()
    ensures { WiredMeansRouted }
{}

/// A connection that is wired, but for that of the supervisory controller, is remembered
/// to have been.
pub fn wired_is_remembered()
    ensures { HoldsThroughout WiredIsRemembered }
{}

/// Which connections were ever wired is never forgotten.
pub fn none_forgotten()
    ensures { HoldsAtEachMoment NoneForgotten }
{}

/// A request that creates or destroys a connection is remembered for one connection.
pub fn remembered_for_one()
    ensures { HoldsThroughout RememberedForOne }
{}

/// A request that creates or destroys a connection is remembered at the moment at which it is made,
/// for a connection that is live then.
pub fn remembered_while_live()
    ensures { HoldsAtEachMoment RememberedWhileLive }
{}

/// Each connection is remembered as wired once at most, and each that is wired, but for that of the
/// supervisory controller, is.
pub fn wired_once()
    ensures { HoldsThroughout WiredOnce }
{}

/// What is wired at a moment is wired by the request that was made to create it, which the
/// supervisory controller serves then. A module is plugged at its interface, which is routed, and
/// it wasn't wired before.
pub fn wired_by_its_request()
    ensures { HoldsAtEachMoment WiredByItsRequest }
{}

/// A connection is wired at most once, by its own request, to a module that is plugged and routed.
pub fn wired_at_most_once()
    ensures { WiredAtMostOnce }
{}

/// A name names a request that was made.
pub fn names_name_requests()
    ensures { NamesNameRequests }
{}

/// The credits of a connection to a UART are 4,096, less the bytes that were sent on it, plus what
/// came back on it, and never above 4,096.
pub fn credits_add_up()
    ensures { CreditsAddUp }
{}

/// What a firmware device keeps came by the last download at its CPort that was done. Where nothing
/// was ever injected on the connection of that, the ranges of its requests follow one another from
/// 0 to the image's size, and it is the image that was given under its tag.
pub fn kept_is_the_image()
    ensures { KeptIsTheImage }
{}

/// A FETCH of a firmware device that is answered with success asks for bytes within the image that
/// is lent under its id, and is answered with these.
pub fn fetched_is_the_image()
    ensures { FetchedIsTheImage }
{}

/// The counts of a summary add up to the number of requests.
pub fn counts_add_up()
    ensures { CountsAddUp }
{}

/// Every run of valid events is a run without settles: each settle is its deliveries, the state
/// after it is the same, and the same happens in it, but for the lines that say that something is
/// done or settled.
pub fn settles_are_deliveries()
    ensures { SettlesAreDeliveries }
{}

/// A request that was made stays so, and never ends as Sent where it isn't unidirectional.
pub fn requests_stay()
    ensures stay { TwowayStays }
    ensures unsent { TwowayIsNeverSent }
{}

/// After an event the outcome of a request that isn't unidirectional is the one that it had, or
/// else the one that the event's entries tell.
pub fn ends_as_told()
    ensures { EndsAsTold }
{}

/// Each send and bridge line that isn't refused asks a request: it is told, has a number above all
/// earlier ones, and is open.
pub fn lines_ask()
    ensures { LinesAsk }
{}

/// The four promises of every run, in one record: answers go by the number of their request and are
/// its own responder's, each request ends at most once and by a cause that came, nothing is open on
/// an interface once its removal is handled, and no CPort handles a message of another connection.
pub fn headline()
    ensures { HeadlineHolds }
{}

/// The laws of runs, together.
pub fn laws_of_runs()
    ensures { LawsOfRuns }
{}

/// What holds of every state of a run, together.
pub fn facts_of_runs()
    ensures { FactsOfRuns }
{}
