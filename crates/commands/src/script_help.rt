//! The lines of scripts, as listed in the help of `play` and `serve`.
use crate::line_words::SPACE;
use crate::pieces::split_first_piece;

/// The help on the lines of `play`: two spaces, a line, two spaces or more, and its meaning.
pub(crate) const PLAY_LINES_HELP: &str = "\
Lines, K a node from 0:
  offer K AUTHOR SERIAL TEXT         offer a text at node K
  offer-lines K AUTHOR SERIAL WORD   the same, the lines up to WORD alone
  offer-bytes K AUTHOR SERIAL N      the same, the N bytes after the line
  charter K AUTHOR SERIAL NAME ..    offer a charter of authors
  begin K                            begin a ballot
  deliver N                          deliver packet N, from 0
  restart K                          restart node K
  apply K                            apply the next entry of its log
  show N                             print packet N
  status K AUTHOR SERIAL             print what its library decided
  why K AUTHOR SERIAL                print why the entry was refused
  list K                             print the assertions of its library
  export K                           print the statements of its library
  log K                              print the entries that it learned
  state K                            print its role, promise and counts
  trace K LABEL                      print the axioms of a proof
  tree K LABEL                       print a derivation
  usage K LABEL [all]                print who cites a statement
  proof K LABEL                      print the steps of a proof
  show K LABEL                       print a statement
  find K PATTERN                     print the assertions that have it
  compare J K                        print which library has more statements
  events                             print the history, as lines of play";

/// The help on the lines of `serve`: two spaces, a line, two spaces or more, and its meaning. A
/// session also has the line `help`.
pub const SERVE_LINES_HELP: &str = "\
Lines, K a node from 0:
  add K AUTHOR SERIAL TEXT           submit a text until it is decided
  add-lines K AUTHOR SERIAL WORD     the same, the lines up to WORD alone
  add-bytes K AUTHOR SERIAL N        the same, the N bytes after the line
  submit K AUTHOR SERIAL TEXT        submit a text at node K
  submit-lines K AUTHOR SERIAL WORD  the same, the lines up to WORD alone
  submit-bytes K AUTHOR SERIAL N     the same, the N bytes after the line
  charter K AUTHOR SERIAL NAME ..    submit a charter of authors
  add-charter K AUTHOR SERIAL NAME ..  the same, until it is decided
  begin K                            begin a ballot
  restart K                          restart node K
  settle K AUTHOR SERIAL             wait for the verdict
  status K AUTHOR SERIAL             print what its library decided
  why K AUTHOR SERIAL                print why the entry was refused
  list K                             print the assertions of its library
  export K                           print the statements of its library
  log K                              print the entries that it took over
  state K                            print its role, promise and counts
  trace K LABEL                      print the axioms of a proof
  tree K LABEL                       print a derivation
  usage K LABEL [all]                print who cites a statement
  proof K LABEL                      print the steps of a proof
  show K LABEL                       print a statement
  find K PATTERN                     print the assertions that have it
  compare J K                        print which library has more statements
  events                             print the history, as lines of play
  health                             print the state of each node
  store K                            print what node K keeps in its folder
With --live also:
  help                               print these lines";

/// The lines of a command: their help, and their first words.
pub(crate) struct ScriptLines {
    help: &'static str,
    pub verbs: &'static str,
}

/// The lines of `play`.
pub(crate) const PLAY_LINES: ScriptLines = ScriptLines {
    help: PLAY_LINES_HELP,
    verbs: "offer, offer-lines, offer-bytes, charter, begin, deliver, restart, apply, show, status, \
        why, list, export, log, state, trace, tree, usage, proof, find, compare or events",
};

/// The lines of a session, of which a script has all but `help`.
pub(crate) const SERVE_LINES: ScriptLines = ScriptLines {
    help: SERVE_LINES_HELP,
    verbs: "add, add-lines, add-bytes, submit, submit-lines, submit-bytes, charter, add-charter, \
        begin, restart, settle, status, why, list, export, log, state, trace, tree, usage, proof, \
        show, find, compare, events, health, store or help",
};

impl ScriptLines {
    /// Returns the form of the line that begins with a verb, if one does.
    pub fn form(&self, verb: &[u8]) -> Option<&'static str> {
        for line in self.help.lines() {
            if let Some(line) = line.strip_prefix("  ") {
                let form = match line.split_once("  ") {
                    Some((form, _meaning)) => form,
                    None => line,
                };
                if first_word(form.as_bytes()) == verb {
                    return Some(form);
                }
            }
        }
        None
    }
}

/// Returns the bytes before the first space.
pub fn first_word(line: &[u8]) -> &[u8] {
    split_first_piece(line, SPACE).0
}
