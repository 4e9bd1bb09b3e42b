use libc::EINTR;
use libc::net::{POLLIN, POLLOUT, poll};
use libc::types::pollfd;
use os::errno;
use race_outside::Failed;
use std::os::fd::AsRawFd;
use std::process::{ChildStdin, ChildStdout};

/// Which ends of a child's pipes can be used without waiting. An end that the child closed can.
#[derive(Clone, Copy)]
pub(crate) struct Ready {
    pub(crate) input: bool,
    pub(crate) output: bool,
}

/// Waits until one of the two ends can be used, or a signal came.
pub(crate) fn wait_for_either(input: &ChildStdin, output: &ChildStdout) -> Result<Ready, Failed> {
    let mut asked = [
        pollfd {
            fd: input.as_raw_fd(),
            events: POLLOUT,
            revents: 0,
        },
        pollfd {
            fd: output.as_raw_fd(),
            events: POLLIN,
            revents: 0,
        },
    ];
    if poll(&mut asked, -1) >= 0 {
        return Ok(Ready {
            input: asked[0].revents != 0,
            output: asked[1].revents != 0,
        });
    }
    if errno() == EINTR {
        return Ok(Ready {
            input: false,
            output: false,
        });
    }
    Err(Failed)
}
