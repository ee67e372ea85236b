// A user as a run begins.
ghost use Rattle.std.specs.Prelude.{[], ◌≡◌, if◌then◌else◌, IfErr, IfOk};
ghost use Rattle.model_base.specs.{IsWithinLimits};
ghost use Rattle.model_core.specs.{collected, line_of, new_user};
ghost use Rattle.model_log.specs.{run_layout};
ghost use Rattle.redo_useractor.specs.Lines.{AreUserLines, IsUserLine};
ghost use Rattle.redo_useractor.specs.Places.{page_if_touched};
ghost use Rattle.redo_useractor.specs.Program.{program_lines};

use crate::actor::{Marks, UserActor};
use crate::book::Book;
use crate::changes::touched_pages;
use crate::line::{Place, UserLine};
use crate::runs::Run;
use model_base::Shape;
use model_core::UserStep;
use model_log::Group;
use redo_link::Advance;
use redo_lsn::{NoMemory, run_layout};
use redo_record::encode;
use std::alloc::Global;

/// The pages that a group of a store is on, ascending; with the log alone none of them counts.
fn pages_of(
    alloc: Global,
    shape: &Shape,
    log_only: bool,
    group: &Group,
) -> Result<Vec<u32>, NoMemory>
    ensures { IfOk result (λ pages. pages.items ≡ (if log_only then [] else collected (page_if_touched group.now) shape.now.pages)) }
{
    if log_only {
        return Ok(Vec::new(alloc));
    }
    touched_pages(alloc, shape.pages, group.0.as_slice())
}

/// A line, with the text of its group and the pages that it is on. Where memory runs out the group comes back.
pub(crate) fn line_of(
    alloc: Global,
    shape: &Shape,
    log_only: bool,
    mode: u32,
    group: Group,
) -> Result<UserLine, (NoMemory, Group)>
    requires limits { IsWithinLimits shape.now }
    requires line { IsUserLine shape.now (mode, group) }
    ensures ok { IfOk result (λ line. line ≡ line_of log_only shape.now mode group) }
    ensures err { IfErr result (λ back. back.1 ≡ group) }
{
    let text = match encode(alloc, &group) {
        Ok(text) => text,
        Err(error) => return Err((error, group)),
    };
    let pages = match pages_of(alloc, shape, log_only, &group) {
        Ok(pages) => pages,
        Err(error) => return Err((error, group)),
    };
    Ok(UserLine {
        shape: *shape,
        mode,
        text,
        group,
        pages,
        run: Run::none(),
    })
}

/// All lines of a user.
fn lines_of(
    alloc: Global,
    shape: &Shape,
    log_only: bool,
    lines: Vec<(u32, Group)>,
) -> Result<Vec<UserLine>, NoMemory>
    requires limits { IsWithinLimits shape.now }
    requires lines { AreUserLines shape.now lines.items }
    ensures { IfOk result (λ made. made.items ≡ program_lines log_only shape.now lines.items) }
{
    let mut made = Vec::with_capacity(alloc, lines.len())?;
    for (mode, group) in lines {
        match line_of(alloc, shape, log_only, mode, group) {
            Ok(line) => made.push(line)?,
            Err((error, _)) => return Err(error),
        }
    }
    Ok(made)
}

impl UserActor {
    /// The user of this number with these lines, each a mode and a group. It takes the room for all that it will hold: the
    /// texts of its groups, the pages that each is on, and where each starts. With the log alone no page is changed. A user that
    /// begins with no line keeps none of those that it is handed in once they are done.
    pub fn new(
        alloc: Global,
        user: u32,
        lines: Vec<(u32, Group)>,
        shape: &Shape,
        log_only: bool,
    ) -> Result<UserActor, NoMemory>
        requires limits { IsWithinLimits shape.now }
        requires lines { AreUserLines shape.now lines.items }
        ensures { IfOk result (λ actor. actor ≡ new_user user (run_layout shape.now).blocks (program_lines log_only shape.now lines.items)) }
    {
        let made = lines_of(alloc, shape, log_only, lines)?;
        let has_lines = !made.is_empty();
        let book = Book::new(alloc, made)?;
        let loaded = Marks {
            ckpt: 0,
            write: 0,
            wtail: 0,
            ctail: 0,
            flushed: 0,
        };
        let step = if has_lines {
            UserStep::LoadCheckpoint
        } else {
            UserStep::Done
        };
        Ok(UserActor {
            user,
            blocks: run_layout(shape).blocks as u32,
            book,
            start: 0,
            copied: 0,
            page: 0,
            cell: 0,
            at: Place { word: 0, count: 0 },
            word: 0,
            loaded,
            advance: Advance::new(),
            code: 0,
            checks: has_lines,
            step,
        })
    }
}
