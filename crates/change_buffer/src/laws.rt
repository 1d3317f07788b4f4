ghost use Rattle.change_buffer.specs.Laws.{SchedulesRise};

/// The runs of the schedule after any history stand in the order of their names, and no two of them have one
/// name. It does nothing when it runs.
pub fn schedules_rise()
    ensures { SchedulesRise }
{}
