use crate::run_name::RunName;
use crate::timetable::Call;
use otp_base::List;

/// A change of the schedule: the run of this name has these calls from now on, or is out.
#[derive(Debug, Drop)]
pub struct Change {
    pub name: RunName,
    pub calls: Option<List<Call>>,
}
