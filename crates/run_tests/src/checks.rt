// The checks of a test: which was the first that did not hold, if any.
#[derive(Drop)]
pub(crate) struct Checks {
    failed: Option<&'static str>,
}

impl Checks {
    pub(crate) fn new() -> Checks {
        Checks { failed: None }
    }

    // Keeps the name of a check that does not hold, if it is the first. A flag, since the caller has made the test.
    pub(crate) fn that(&mut self, name: &'static str, holds: bool) {
        if !holds && self.failed.is_none() {
            self.failed = Some(name);
        }
    }

    pub(crate) fn failed(&self) -> Option<&'static str> {
        self.failed
    }
}
