//! The plan of a checkout.
use checkout_engine::report_plan;
use checkout_sources::read_plan;
use exit_status::ExitStatus;
use git_edge::GitRepo;
use siuwbren_index::{
    GatheredSink, end_run, end_with, refuse_guarded, refuse_repository, show_refusal,
};
use siuwbren_words::PlanWords;
use std::alloc::AllocError;

/// Shows what a checkout of a repository that is open would do.
fn show_plan_of(
    rt: HostRuntime,
    asked: &PlanWords<'_>,
    repo: &mut GitRepo,
) -> Result<u8, AllocError> {
    if let Some(status) = refuse_guarded(rt, repo, asked.form)? {
        return Ok(end_with(rt, status.number()));
    }
    let planned = read_plan(rt.alloc(), repo);
    let mut out = GatheredSink::new(rt, asked.form);
    let reported = report_plan(rt.alloc(), asked.form, &mut out, planned);
    let status = out.end(reported);
    end_run(rt, asked.form, status.number(), repo);
    if matches!(status, ExitStatus::Refused) {
        show_refusal(rt, repo);
    }
    Ok(status.number())
}

/// Shows what a checkout of a repository's index, or of a commit, would do.
pub fn show_plan(rt: HostRuntime, asked: &PlanWords<'_>) -> Result<u8, AllocError> {
    match GitRepo::open(rt, asked.git_dir, asked.commit) {
        Ok(mut repo) => {
            let status = show_plan_of(rt, asked, &mut repo);
            repo.end();
            status
        }
        Err(fault) => Ok(refuse_repository(rt, asked.form, &fault)),
    }
}
