use once_cell::race::OnceBool;

/// What a worker passes before the work of each lease, while it holds no turn.
pub trait Gate {
    /// Passes the gate for the task with that number. It answers nothing.
    fn enter(&self, task: u32);
}

/// A gate that does nothing.
#[derive(Clone, Copy)]
pub struct OpenGate;

impl Gate for OpenGate {
    fn enter(&self, _task: u32) {}
}

/// A gate that shows whether two workers were at work at one time: it holds the first entry until a second
/// one came, or until it has looked `limit` times.
#[derive(Drop)]
pub struct MeetGate {
    limit: u64,
    first: OnceBool,
    second: OnceBool,
    met: OnceBool,
}

impl MeetGate {
    /// A gate that nobody has entered. Its first entry looks for the second one at most `limit` times.
    pub fn new(limit: u64) -> MeetGate {
        MeetGate {
            limit,
            first: OnceBool::new(),
            second: OnceBool::new(),
            met: OnceBool::new(),
        }
    }

    /// Whether a second entry came while the first one was held.
    pub fn met(&self) -> bool {
        self.met.get().is_some()
    }

    fn wait_for_second(&self) {
        for _ in 0..self.limit {
            if self.second.get().is_some() {
                let _ = self.met.set(true);
                return;
            }
        }
    }
}

impl Gate for MeetGate {
    fn enter(&self, _task: u32) {
        if self.first.set(true).is_ok() {
            self.wait_for_second();
        } else {
            let _ = self.second.set(true);
        }
    }
}
