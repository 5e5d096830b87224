//! What whoever looks after a node that runs by itself is told of it, and when (docs/CLI.md, "Nodes over UDP").

use crate::Notice;
use address::ViewId;
use std::time::Duration;

/// How often its status is shown at most, in seconds.
const SHOWS: u64 = 1;

/// For how long a member is blocked before it says so, in seconds.
const BLOCKED: u64 = 2;

/// What is to be told of a node, and what was.
#[derive(Drop)]
pub(crate) struct Watch {
    // What is to be told next.
    notice: Option<Notice>,
    // Since when its member is blocked, and whether that was said.
    blocked: Option<Duration>,
    is_said: bool,
    // When its status was shown last.
    shown: Option<Duration>,
    // The view of which it was told that it has too few members.
    few: Option<ViewId>,
}

impl Watch {
    /// Nothing was told yet.
    pub(crate) fn new() -> Watch {
        Watch {
            notice: None,
            blocked: None,
            is_said: false,
            shown: None,
            few: None,
        }
    }

    /// This is to be told next.
    pub(crate) fn note(&mut self, notice: Notice) {
        self.notice = Some(notice);
    }

    /// Whether something is to be told.
    pub(crate) fn has_notice(&self) -> bool {
        self.notice.is_some()
    }

    /// Takes what is to be told, if anything is.
    pub(crate) fn take_notice(&mut self) -> Option<Notice> {
        let notice = self.notice;
        self.notice = None;
        notice
    }

    /// Lines wait, since a view has too few members: so many. It is told once of each view.
    pub(crate) fn wait_for_more(&mut self, view: ViewId, members: usize) {
        if self.few != Some(view) {
            self.few = Some(view);
            self.note(Notice::TooFew(members));
        }
    }

    /// It is this time, and its member is blocked or not. Answers whether that is to be said now: once, after `BLOCKED`.
    pub(crate) fn pass(&mut self, now: Duration, is_blocked: bool) -> bool {
        if !is_blocked {
            self.blocked = None;
            self.is_said = false;
            return false;
        }
        let since = self.blocked.unwrap_or(now);
        self.blocked = Some(since);
        if self.is_said || now.saturating_sub(since) < Duration::from_secs(BLOCKED) {
            return false;
        }
        self.is_said = true;
        true
    }

    /// For how long its member has been blocked, if it is.
    pub(crate) fn blocked(&self, now: Duration) -> Option<Duration> {
        match self.blocked {
            Some(since) => Some(now.saturating_sub(since)),
            None => None,
        }
    }

    /// Whether its status is to be shown at this time.
    pub(crate) fn shows(&mut self, now: Duration) -> bool {
        match self.shown {
            Some(last) if now.saturating_sub(last) < Duration::from_secs(SHOWS) => false,
            _ => {
                self.shown = Some(now);
                true
            }
        }
    }
}
