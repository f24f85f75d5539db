//! The texts of the long help.

/// The program's version.
pub(crate) const VERSION: &str = "0.2.0";

/// What stands under the options of the program.
pub(crate) const PROGRAM_NOTES: &str = "\
This is the proved part: it runs scripts, audits journals, and says what nodes and servers
hold. What only shows such things, as check, explain, picture and explore, are tools that
stand beside it and read what it prints.

Exit status:
  0  done; of a command that reads a journal: it is one of a run
  1  a command that reads a journal, and --after: it is not one of a run; state: no such
     entry; threads: the journal lacks a receipt, or the run was stopped as stuck;
     run --calm: its rounds were cut off; run --expect: a reply is not as expected;
     judge: a history, or an order of one, is contradicted; merge: the logs have no order
  2  the words of the command line are refused
  3  SCRIPT, JOURNAL or HISTORY has a bad line, or can't be read, JOURNAL is too old to go
     on from, or FILE or the text can't be written
  4  no memory, or more entries than a journal may have (1048576)
  5  judge: whether a history is contradicted is not known; threads: a run was stopped
     where a call could still be answered, for all that is known
Standard error says which, of 2 to 4: at 3 and 4 in one line. Of a file that can't be read
run, threads, audit and history tell no reason; the other commands tell it.

Where a file is read, - is standard input. FILE is the name of a file also where it is -.

A journal is a file that holds the entries of a run in their order, each with its reply
and the messages that it sends. To keep the journal of a run, to see later whether its
entries are a run, and to print their history:
  lockreplay run SCRIPT --journal FILE
  lockreplay audit FILE
  lockreplay history FILE
To go on behind it:
  lockreplay run SCRIPT --after FILE
To see what nodes and servers hold behind entry 12:
  lockreplay state FILE --at 12
To see whether each reply of a run is as its script expects:
  lockreplay run SCRIPT --expect --quiet
To see whether what clients of any lock manager saw contradicts itself:
  lockreplay judge HISTORY
To have each node and each token server as a process that reads and writes lines, the list
of those that failed and began again, and one journal of their logs ('lockreplay seat
--help' and so on tell more):
  lockreplay seat node 1 --nodes 2 --files 1 --policy wide --log LOG
  lockreplay members --nodes 2 --files 1 --state LIST
  lockreplay merge LOG LOG LOG --members LIST --journal FILE

'lockreplay help run' tells how a script is written and what the listing shows.";

/// What stands under the options of `run`.
pub(crate) const RUN_NOTES: &str = "\
A script is text in lines. Each line ends with a line feed, the last one too; empty
lines and lines that begin with # are skipped. Words have one space between them,
and numbers are decimal, without leading zeros. SCRIPT may be - for standard input.

The first line gives the cluster:
  cluster nodes N files F policy P      N to 64, F to 256, P is wide or exact
Every other line is one of these:
  call N PID OP       process PID (1 to 256) of node N makes a lock call
  deliver K           message K arrives, which may be for the second time
  lose K              message K is lost: settle passes over it
  settle              the earliest message that was not yet delivered, lost or
                      passed over is delivered, again and again until none is left
  interrupt N PID     the open wait of process PID of node N is interrupted
  retry N PID         node N sends the request of the open call of PID again
  resend F            the server of file F sends again what has no answer
  declare N           node N is declared failed: its processes and locks are gone
  restart N           node N begins again, in its next incarnation
  learn F N I         the server of file F learns that incarnation I of N failed
  fail-server F       the server of file F is declared failed: what it knew is gone
  start-server F      the server of file F begins again, and asks all nodes alive for
                      their tokens, before which it serves nothing
K counts the messages in the order of sending, from 1. OP is one of these:
  spawn                              the process begins
  fork PID                           process PID begins, with the same descriptors
  open F ACCESS                      file F gets the lowest free descriptor (0 to 63)
  dup FD                             one more descriptor of what FD refers to
  close FD                           the process loses FD, and its locks on that file
  exit                               the process ends, with its descriptors and locks
  set FD KIND MODE START LEN         lock a segment, unless it is blocked
  wait FD KIND MODE START LEN        lock a segment, as soon as it is not blocked
  unlock FD KIND START LEN           unlock a segment
  query FD KIND MODE START LEN       ask which lock blocks a segment
ACCESS is r, w or rw, MODE read or write. KIND says whose the lock is: proc, of the
process, or desc, of what FD refers to, which keeps it until its last close. A segment
has LEN bytes from byte START on. With LEN 0 it goes on to the greatest offset,
9223372036854775807; with LEN below 0 it is the -LEN bytes before START.

The listing has five sections: the refused lines, the replies, the tokens at the end,
the locks at the end, and one history, in which every call has its place in one table
of locks. What happens is an entry: a call, a delivery, an interrupt, a retry, a
resend, a learn, or that a node or a server is declared failed or begins again.
Replies and the calls of the history stand at positions of entries, counted from 1.

A line that is refused is listed with its number and a code, and the run goes on (of a
server the codes are as of a node):
  10  the node is not alive             13  the process has an open call
  11  the node is not declared failed   14  no such node, process, file or message
  12  the node restarted too often      15  the node is declared failed
                                        19  the actor ran out of numbers
These refusals end the run (see the exit status):
   3  no memory       9  bad line       16  journal full

With --journal FILE the journal of the run is written to FILE, in the place of what was
there, before the listing is printed. A run that fails before that leaves FILE as it was.

With --expect the replies are compared with what comment lines right behind 'call' lines
say: WORDS are what the reply begins with, letter by letter. Each call that came to
something else is told on standard error, and the exit status is 1:
  # expect WORDS

With --quiet, which needs --journal FILE or --expect, no listing is made, and the time and
the memory for it are spared: nothing is printed. Which lines were refused is not told
then.

With --calm the run goes on behind the lines of SCRIPT. What is under way is delivered,
and then rounds follow until no call is open, or a round answers none. In a round each
server learns which incarnation of each node failed last, each open call is tried again,
each server sends again what has no answer, and all that is sent in the round is delivered.
Where an entry of a round is refused, as where the journal is full, the run ends there,
'not calm: WHY' stands on standard error, and the exit status is 1.

With --after JOURNAL the script goes on behind the run of JOURNAL, a file that --journal
wrote. Its first line has to name the same cluster. Messages are counted on, 'settle'
passes over those of JOURNAL, and the listing and FILE hold the whole run; 'refused' is
of the script. JOURNAL is audited first: where it is no run, 'audit no K' is the text, and
the exit status is 1. One of version 1 is refused as an 'old journal' (exit status 3).";

/// What stands under the options of `threads`.
pub(crate) const THREADS_NOTES: &str = "\
The script is written as for 'lockreplay run', but of the lines 'cluster', 'call',
'settle', 'declare', 'restart', 'fail-server' and 'start-server' alone; another is a bad
line. Each node and each server has a thread, and messages go from one to the other by
themselves. The calls between two other lines happen side by side: each process makes its
own in their order, and waits for each reply. Any other line, and the end, waits until all
are answered. A 'wait' for a lock that nobody gives up keeps the run going until its
journal is full; so does a call that needs a token of a server that is declared failed.
With --stop-when-stuck the run ends where no open call can be answered any more: nothing
is interrupted, and lines that were not yet made are left out. The listing and the two
lines behind it are printed, a line 'open CALL' for each call without a reply goes to
standard error, and the exit status is 1.

With --no-join a line of failures or starts is made while calls are open: it waits only
until no call before it can be answered without it. The later calls of a process whose
call is open wait behind that. An open call ends, and is listed as refused with 17, where
its node is declared failed. 'settle', and the end, waits for all calls as without it.

The listing is that of the journal of this run, which depends on the schedule. The codes
of refused lines are those of 'lockreplay run', and 17. Two lines stand behind it:
  receipts K     K calls were answered, and the journal has each with its reply where the
                 process was told that they stand; where it lacks another that was
                 answered, the exit status is 1
  audit yes      the journal is one of a run
Messages meet a weather: of sixteen, one is lost by chance, one comes twice, and two come
some milliseconds late. What becomes of the first, second, third .. message of a node or a
server depends on the seed and on its place alone, nodes first.

With --journal FILE the journal of the run is written to FILE, in the place of what was
there, before the listing is printed. A run that fails before that leaves FILE as it was.";

/// What stands under the options of `audit`.
pub(crate) const AUDIT_NOTES: &str = "\
The entries are taken as a run of the cluster of the first line, one step after the
other. The text is one of these:
  audit yes      the entries are a run (exit status 0)
  audit no K     entry K, counted from 1, is the first that is not the next step
                 of a run (exit status 1)

Every run has a history, in which one table of locks gives each reply of the run.
'lockreplay history' prints it.";

/// What stands under the options of `history`.
pub(crate) const HISTORY_NOTES: &str = "\
The journal is audited first. Where its entries are a run, the section 'history' of the
listing of the run is printed (exit status 0): every call at its place in one table of
locks. Else the text is 'audit no K', as of 'lockreplay audit' (exit status 1).

With --as-clients the text is a history of clients in its place, as 'lockreplay judge'
reads it: what each owner was told of its calls about files. The times of a call are the
entries, counted from 1, at which it was made and answered.";

/// What stands under the options of `state`.
pub(crate) const STATE_NOTES: &str = "\
The journal is audited first. Where its entries are no run, the text is 'audit no K', as
of 'lockreplay audit' (exit status 1).

Else the text tells what nodes and servers hold behind entry K, counted from 1: behind
the last where --at is left out, with --at 0 before the first (exit status 0). Where the
journal has no entry K, the text is 'no entry K, the last is L' (exit status 1).";

/// What stands under the options of `judge`.
pub(crate) const JUDGE_NOTES: &str = "\
HISTORY tells what clients of a lock manager saw, one line for a call, with when it was
made, when its reply came, and its owner:
  history 1 clock ns
  call 1200 1900 p1 set F write 0 100 -> done
  call 2000 2500 p2 set F write 50 10 -> again write 0 100 p1
  call 2600 - p2 wait F write 50 10
  call 2700 2800 p1 exit
F names a file. docs/FORMATS.md, 'Histories of clients', has all lines. The files are
judged one by one: in which order, each call between its times, would one table of locks
give each reply? The text is one of these:
  history yes        such an order was found for each file (exit status 0)
  history no         for one of them there is none (exit status 1)
  history unknown    none was found among N tables of a file (exit status 5)
Here yes means that no contradiction was observed, and no more. Behind 'no' stands for
each such file the first call that fits nowhere, by its line, and for up to three tables
that there may have been before it what they hold, what of it is in its way and which
calls are open. Behind 'unknown' stands the line of the call at whose end the steps ran
out.

With --go-on the call that fits nowhere is left out, and the search goes on behind it; the
text tells each. With --order the order is printed, behind 'yes' a line for each file:
  order F LINE LINE ..
With --explains FILE such lines are read from FILE and nothing is searched. The text is
'explains yes' where the orders explain the calls (exit status 0), else 'explains no F'
with the first file whose order doesn't (exit status 1). With --stats a line of counts is
printed too: the calls that are judged, exits, calls that say nothing, files, owners and
machines. With --json all is printed as JSON.

With --allow RULE, once for each, the history is judged by one table, but for these:
  wait-drops            a wait first gives back its owner's own locks on its bytes
  close-own-descriptor  a close of a descriptor that was not used drops no lock
  no-query              what queries tell says nothing
  stale-read-denial     a lock that is gone may be in the way of a read lock
  lost-at               each owner loses its locks in the times that 'lost' lines tell

Of several histories each line of the text begins with 'HISTORY: '. The exit status is 1
where one is contradicted, else 5 where one is unknown.

A test shows what clients look at: a lost lock is found only where somebody looks. A
tester wants few hot bytes, a yield behind each call, and an observer that queries all
the time. Log an exit of each owner, also of one that is killed or fenced.";
