// The words of the command line.
ghost use Rattle.zy_top_words.specs.Words.{texts};
ghost use Rattle.zy_trace.specs.Words.{IsNamed, behind_group, trace_words};

/// The names of the two files.
#[derive(Clone, Copy)]
pub(crate) struct Named<'a> {
    pub(crate) group: &'a str,
    pub(crate) schedule: &'a str,
}

/// The names, or the number of the first word that isn't allowed, is missing or is too many.
pub(crate) fn trace_words(words: &[String]) -> Result<Named<'_>, u64>
    ensures { IsNamed (trace_words (texts words.now)) result }
{
    let [group, others @ ..] = words else {
        return Err(1);
    };
    if group.as_str().starts_with('-') {
        return Err(1);
    }
    behind_group(group.as_str(), others)
}

fn behind_group<'a>(group: &'a str, words: &'a [String]) -> Result<Named<'a>, u64>
    ensures { IsNamed (behind_group group.now (texts words.now)) result }
{
    let [schedule, others @ ..] = words else {
        return Err(2);
    };
    if schedule.as_str().starts_with('-') {
        return Err(2);
    }
    if !others.is_empty() {
        return Err(3);
    }
    Ok(Named {
        group,
        schedule: schedule.as_str(),
    })
}
