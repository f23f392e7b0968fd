//! The start line, where the threads wait until all are there. What it does is in no contract: nothing of a run's promise
//! rests on it but that no mail is sent before all threads and arenas are there.
use crate::threads::RunFault;
use std::sync::{Condvar, Mutex, Wait};

// Who is there, whether all may go, and why all end.
#[derive(Drop)]
struct State {
    ready: usize,
    is_open: bool,
    called_off: Option<RunFault>,
}

/// Where the threads wait until all are there.
#[derive(Drop)]
pub(crate) struct StartLine {
    state: Mutex<State>,
    changed: Condvar,
}

impl StartLine {
    pub(crate) fn new() -> StartLine {
        StartLine {
            state: Mutex::new(State {
                ready: 0,
                is_open: false,
                called_off: None,
            }),
            changed: Condvar::new(),
        }
    }

    /// A thread is there, with its memory. Waits until all may go; an error is why all end.
    pub(crate) fn arrive<R: Wait>(&self, rt: &R) -> Result<(), RunFault> {
        let mut state = self.state.lock(rt);
        state.ready = state.ready.saturating_add(1);
        self.changed.notify_all();
        let state = self
            .changed
            .wait_while(rt, state, |s| !s.is_open && s.called_off.is_none());
        match state.called_off {
            None => Ok(()),
            Some(fault) => Err(fault),
        }
    }

    /// Waits until so many threads are there, and lets them go; an error is why all end.
    pub(crate) fn open<R: Wait>(&self, rt: &R, threads: usize) -> Result<(), RunFault> {
        let mut state = self.changed.wait_while(rt, self.state.lock(rt), |s| {
            s.ready < threads && s.called_off.is_none()
        });
        match state.called_off {
            None => {
                state.is_open = true;
                self.changed.notify_all();
                Ok(())
            }
            Some(fault) => Err(fault),
        }
    }

    /// Ends all threads, for this reason or for an earlier one.
    pub(crate) fn call_off<R: Wait>(&self, rt: &R, fault: RunFault) {
        let mut state = self.state.lock(rt);
        if state.called_off.is_none() {
            state.called_off = Some(fault);
        }
        self.changed.notify_all();
    }
}
