//! The files of a run beside those that its case wants, and beside those of a whole run.
use crate::trial::Outcome;
use og_case_files::{Case, CaseFile, is_named};
use og_value::Text;

impl Outcome {
    /// Whether each file is as the case wants it after the run, and no other was written.
    pub fn has_wanted_files(&self, case: &Case) -> bool {
        self.other_file(case).is_none() && self.unwanted_file(case).is_none()
    }

    /// The first file of the case that is not as it is wanted.
    pub fn unwanted_file<'a>(&self, case: &'a Case) -> Option<&'a CaseFile> {
        for file in &case.files {
            if !file.may_have(self.files.file(&file.name)) {
                return Some(file);
            }
        }
        None
    }

    /// The name of the first file that was to be written and is none of the case.
    pub fn other_file(&self, case: &Case) -> Option<&Text> {
        for write in self.files.writes() {
            if !is_named(case.files.as_slice(), &write.name) {
                return Some(&write.name);
            }
        }
        None
    }

    /// Whether each file is as the first calls of a whole run left it, up to that number, and no other was written.
    pub fn has_files_after(&self, calls: u64, whole: &Outcome, case: &Case) -> bool {
        for file in &case.files {
            if self.files.file(&file.name) != whole.files.file_after(calls, file) {
                return false;
            }
        }
        self.other_file(case).is_none()
    }

    /// Whether what was written is a front of what the case wants.
    pub fn has_front(&self, case: &Case) -> bool {
        case.output.as_slice().starts_with(self.written.as_slice())
    }
}
