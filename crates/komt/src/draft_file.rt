use kom_links::Failed;
use kom_visit::Drafts;
use std::rt::{Env, Files};
use std::{env, fs};

/// The file `~/.komt-draft`.
#[derive(Drop)]
pub(crate) struct DraftFile<'a, R: Files + Env + AllocGlobal> {
    rt: &'a R,
}

impl<'a, R: Files + Env + AllocGlobal> DraftFile<'a, R> {
    pub(crate) fn new(rt: &'a R) -> DraftFile<'a, R> {
        DraftFile { rt }
    }
}

impl<R: Files + Env + AllocGlobal> Drafts for DraftFile<'_, R> {
    fn keep(&mut self, draft: &[u8]) -> Result<(), Failed> {
        let Ok(home) = env::var(self.rt, "HOME") else {
            return Err(Failed);
        };
        let mut path = home;
        if path.push_str("/.komt-draft").is_err() {
            return Err(Failed);
        }
        match fs::write(self.rt, path.as_str(), draft) {
            Ok(()) => Ok(()),
            Err(_) => Err(Failed),
        }
    }
}
